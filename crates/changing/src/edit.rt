// An edit that goes first, called from C.
ghost use Rattle.tables.specs.Tables.{tables_of};
ghost use Rattle.simulator.specs.Edit.{goes_first};
ghost use Rattle.simulator.specs.Calls.{Edits};
ghost use Rattle.words.specs.Said.{short, CallChanges};

use tables::FlatIdx;
use words::{counts_in, keep};

// An edit of the component at an index to a plain number: the very next round evaluates it.
pub fn berxundar_edit(
    components: &[u64],
    inputs: &mut [u64],
    outputs: &mut [u64],
    wires: &[u16],
    current: &mut [u16],
    following: &[u16],
    standing: &[u16],
    counts: &mut [u64],
    index: usize,
    number: u64,
) -> u32
    ensures { let lent = tables_of components.now inputs.old outputs.old wires.now
        current.old following.now standing.now in
        let left = tables_of components.now inputs.new outputs.new wires.now
        current.new following.now standing.now in
        CallChanges (Edits goes_first index number) (short counts.old 7) counts.old counts.new lent left result }
{
    if counts.len() < 7 {
        return 131072;
    }
    let answer = simulator::edit(
        components,
        inputs,
        outputs,
        wires,
        current,
        following,
        standing,
        counts_in(counts),
        FlatIdx(index),
        number,
    );
    keep(counts, answer)
}
