// An edit of the old way of the slow engine, called from C.
ghost use Rattle.simulator.specs.Edit.{stands};
ghost use Rattle.slow.specs.Slow.{slow_tables_of, SlowEdits};
ghost use Rattle.slowly.specs.Slowly.{few_slow, CallSlow};

use crate::counts::{counts_in, keep};
use tables::FlatIdx;

// An edit of the component at an index to a plain number: the component stands, and is evaluated no later than the third round after.
pub fn berxundar_slow_edit_standing(
    file: &[u8],
    inputs: &mut [u64],
    outputs: &mut [u64],
    current: &[u16],
    following: &[u16],
    standing: &mut [u16],
    counts: &mut [u64],
    index: usize,
    number: u64,
) -> u32
    ensures { let lent = slow_tables_of inputs.old outputs.old current.now following.now standing.old in
        let left = slow_tables_of inputs.new outputs.new current.now following.now standing.new in
        CallSlow (SlowEdits file.now stands index number) (few_slow file.now counts.old) counts.old
        counts.new lent left result }
{
    if component::is_sized(file) & (counts.len() < 5) {
        return 131072;
    }
    let answer = slow::edit_standing(
        file,
        inputs,
        outputs,
        current,
        following,
        standing,
        counts_in(counts),
        FlatIdx(index),
        number,
    );
    keep(counts, answer)
}
