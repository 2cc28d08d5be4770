// Run until calm of the slow engine, called from C.
ghost use Rattle.std.specs.Prelude.{◌&&◌, ◌||◌};
ghost use Rattle.component.specs.Record.{sized};
ghost use Rattle.words.specs.Said.{short};
ghost use Rattle.slow.specs.Slow.{slow_tables_of, SlowRuns};
ghost use Rattle.slowly.specs.Slowly.{CallSlowRuns};

use crate::counts::{counts_in, keep_run};

// Rounds at a time until calm, at most so many. Three words are lent for the rounds run, the evaluations made and how many times an output
// changed.
pub fn berxundar_slow_run_until_calm(
    file: &[u8],
    inputs: &mut [u64],
    outputs: &mut [u64],
    current: &mut [u16],
    following: &mut [u16],
    standing: &mut [u16],
    counts: &mut [u64],
    time: u64,
    limit: u16,
    found: &mut [u64],
) -> u32
    ensures { let lent = slow_tables_of inputs.old outputs.old current.old following.old standing.old in
        let left = slow_tables_of inputs.new outputs.new current.new following.new standing.new in
        CallSlowRuns (SlowRuns file.now time limit) (sized file.now && (short counts.old 5 || short found.old 3))
        counts.old counts.new found.old found.new lent left result }
{
    if component::is_sized(file) & ((counts.len() < 5) | (found.len() < 3)) {
        return 131072;
    }
    let answer = slow::run_until_calm(
        file,
        inputs,
        outputs,
        current,
        following,
        standing,
        counts_in(counts),
        time,
        limit,
    );
    keep_run(counts, found, answer)
}
