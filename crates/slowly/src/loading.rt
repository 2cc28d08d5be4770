// A load of the slow engine, called from C.
ghost use Rattle.slow.specs.Slow.{slow_tables_of, SlowLoads};
ghost use Rattle.slowly.specs.Slowly.{few_slow, CallSlow};

use crate::counts::keep;

// Loads a drawing file into the five tables.
pub fn berxundar_slow_load(
    file: &[u8],
    inputs: &mut [u64],
    outputs: &mut [u64],
    current: &mut [u16],
    following: &mut [u16],
    standing: &mut [u16],
    counts: &mut [u64],
) -> u32
    ensures { let lent = slow_tables_of inputs.old outputs.old current.old following.old standing.old in
        let left = slow_tables_of inputs.new outputs.new current.new following.new standing.new in
        CallSlow (SlowLoads file.now) (few_slow file.now counts.old) counts.old
        counts.new lent left result }
{
    if component::is_sized(file) & (counts.len() < 5) {
        return 131072;
    }
    let answer = slow::load(file, inputs, outputs, current, following, standing);
    keep(counts, answer)
}
