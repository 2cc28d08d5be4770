// Run until calm, called from C.
ghost use Rattle.std.specs.Prelude.{◌||◌};
ghost use Rattle.tables.specs.Tables.{tables_of};
ghost use Rattle.simulator.specs.Calls.{Runs};
ghost use Rattle.words.specs.Said.{short};
ghost use Rattle.changing.specs.Changing.{CallRuns};

use words::{counts_in, lay_run};

// Rounds at a time until calm, at most so many. Three words are lent for the rounds run, the evaluations made and how many times an output
// changed.
pub fn berxundar_run_until_calm(
    components: &[u64],
    inputs: &mut [u64],
    outputs: &mut [u64],
    wires: &[u16],
    current: &mut [u16],
    following: &mut [u16],
    standing: &mut [u16],
    counts: &mut [u64],
    time: u64,
    limit: u16,
    found: &mut [u64],
) -> u32
    ensures { let lent = tables_of components.now inputs.old outputs.old wires.now
        current.old following.old standing.old in
        let left = tables_of components.now inputs.new outputs.new wires.now
        current.new following.new standing.new in
        CallRuns (Runs time limit) (short counts.old 7 || short found.old 3) counts.old counts.new
        found.old found.new lent left result }
{
    if (counts.len() < 7) | (found.len() < 3) {
        return 131072;
    }
    let answer = simulator::run_until_calm(
        components,
        inputs,
        outputs,
        wires,
        current,
        following,
        standing,
        counts_in(counts),
        time,
        limit,
    );
    lay_run(counts, found, answer)
}
