// An edit that goes first. Rule: docs/SPECIFICATION.md, "Rounds" and "Numbers given back".
ghost use Rattle.tables.specs.Tables.{tables_of, counts_after};
ghost use Rattle.simulator.specs.Edit.{goes_first};
ghost use Rattle.simulator.specs.Calls.{Edits};

use crate::edits::set_or_refuse;
use kinds::Refusal;
use tables::{Counts, FlatIdx};

// Sets a component's port to a number and appends the component to the current list unless there: the very next round evaluates it. A
// refusal changes no table.
pub fn edit(
    components: &[u64],
    inputs: &mut [u64],
    outputs: &mut [u64],
    wires: &[u16],
    current: &mut [u16],
    following: &[u16],
    standing: &[u16],
    counts: Counts,
    index: FlatIdx,
    number: u64,
) -> Result<Counts, Refusal>
    ensures { let before = tables_of components.now inputs.old outputs.old wires.now
        current.old following.now standing.now counts in
        let after = tables_of components.now inputs.new outputs.new wires.now
        current.new following.now standing.now (counts_after result counts) in
        Edits goes_first index.0 number before result after }
{
    set_or_refuse(
        components, inputs, outputs, wires, current, following, standing, counts, index.0, number,
    )?;
    let mut left = counts;
    left.current = tables::append_new(current, counts.current, index.0 as u16);
    Ok(left)
}
