// The old way of an edit, in which its component stands. Rule: docs/SPECIFICATION.md, "Rounds" and "Numbers given back".
ghost use Rattle.tables.specs.Tables.{tables_of, counts_after};
ghost use Rattle.simulator.specs.Edit.{stands};
ghost use Rattle.simulator.specs.Calls.{Edits};

use crate::edits::set_or_refuse;
use kinds::Refusal;
use tables::{Counts, FlatIdx};

// The old way of an edit: sets the port likewise and appends the component to the standing list unless there, so that it is evaluated no
// later than the third round after. A refusal changes no table. The runs against the Rust and the timing case ask for it.
pub fn edit_standing(
    components: &[u64],
    inputs: &mut [u64],
    outputs: &mut [u64],
    wires: &[u16],
    current: &[u16],
    following: &[u16],
    standing: &mut [u16],
    counts: Counts,
    index: FlatIdx,
    number: u64,
) -> Result<Counts, Refusal>
    ensures { let before = tables_of components.now inputs.old outputs.old wires.now
        current.now following.now standing.old counts in
        let after = tables_of components.now inputs.new outputs.new wires.now
        current.now following.now standing.new (counts_after result counts) in
        Edits stands index.0 number before result after }
{
    set_or_refuse(
        components, inputs, outputs, wires, current, following, standing, counts, index.0, number,
    )?;
    let mut left = counts;
    left.standing = tables::append_new(standing, counts.standing, index.0 as u16);
    Ok(left)
}
