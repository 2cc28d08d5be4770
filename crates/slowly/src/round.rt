// A round of the slow engine, called from C.
ghost use Rattle.slow.specs.Slow.{slow_tables_of};
ghost use Rattle.slowly.specs.Slowly.{CallSlowRounds};

use crate::counts::{counts_in, keep};

// A round at a time. A table of 256 words is lent for which outputs changed of each component evaluated.
pub fn berxundar_slow_round(
    file: &[u8],
    inputs: &mut [u64],
    outputs: &mut [u64],
    current: &mut [u16],
    following: &mut [u16],
    standing: &mut [u16],
    counts: &mut [u64],
    time: u64,
    moved: &mut [u64],
) -> u32
    ensures { let lent = slow_tables_of inputs.old outputs.old current.old following.old standing.old in
        let left = slow_tables_of inputs.new outputs.new current.new following.new standing.new in
        CallSlowRounds file.now time counts.old counts.new moved.old moved.new lent left result }
{
    if component::is_sized(file) & (counts.len() < 5) {
        return 131072;
    }
    let answer = slow::round(
        file,
        inputs,
        outputs,
        current,
        following,
        standing,
        moved,
        counts_in(counts),
        time,
    );
    keep(counts, answer)
}
