// An edit of the old way, called from C.
ghost use Rattle.tables.specs.Tables.{tables_of};
ghost use Rattle.simulator.specs.Edit.{stands};
ghost use Rattle.simulator.specs.Calls.{Edits};
ghost use Rattle.words.specs.Said.{short, CallChanges};

use tables::FlatIdx;
use words::{counts_in, keep};

// An edit of the component at an index to a plain number: the component stands, and is evaluated no later than the third round after.
pub fn berxundar_edit_standing(
    components: &[u64],
    inputs: &mut [u64],
    outputs: &mut [u64],
    wires: &[u16],
    current: &[u16],
    following: &[u16],
    standing: &mut [u16],
    counts: &mut [u64],
    index: usize,
    number: u64,
) -> u32
    ensures { let lent = tables_of components.now inputs.old outputs.old wires.now
        current.now following.now standing.old in
        let left = tables_of components.now inputs.new outputs.new wires.now
        current.now following.now standing.new in
        CallChanges (Edits stands index number) (short counts.old 7) counts.old counts.new lent left result }
{
    if counts.len() < 7 {
        return 131072;
    }
    let answer = simulator::edit_standing(
        components,
        inputs,
        outputs,
        wires,
        current,
        following,
        standing,
        counts_in(counts),
        FlatIdx(index),
        number,
    );
    keep(counts, answer)
}
