// Edits of the slow engine, of both ways. Rule: docs/SPECIFICATION.md, "The slow engine" and "Rounds" (edits).
ghost use Rattle.std.specs.Prelude.{◌≡◌};
ghost use Rattle.component.specs.Record.{record_at, record_count};
ghost use Rattle.simulator.specs.Edit.{goes_first, stands};
ghost use Rattle.slow.specs.Slow.{slow_tables_of, slow_edit_verdict, slow_counts_after, SlowEdits};
ghost use Rattle.slow.specs.Sending.{set_by, drawn_inputs, drawn_outputs};

use crate::SlowCounts;
use crate::entering::is_led_into;
use crate::preparing::{are_full, prepare};
use kinds::Refusal;
use simulator::{check_port, set_port};
use tables::FlatIdx;

// Makes the checks of an edit, on any file and tables, and sets the port where none refuses: 1, 2, 3 to 15, 20, 17, 18, 19.
fn set_or_refuse(
    file: &[u8],
    inputs: &mut [u64],
    outputs: &mut [u64],
    current: &[u16],
    following: &[u16],
    standing: &[u16],
    counts: SlowCounts,
    i: usize,
    number: u64,
) -> Result<(), Refusal>
    ensures { let lent = slow_tables_of inputs.old outputs.old current.now following.now standing.now counts in
        (result ≡ slow_edit_verdict file.now lent i number)
        × (inputs.new ≡ set_by result (drawn_inputs (record_at file.now) (record_count file.now) i number inputs.old)
        inputs.old)
        × (outputs.new ≡ set_by result (drawn_outputs (record_at file.now) (record_count file.now) i number outputs.old)
        outputs.old) }
{
    let mut index = [0u16; 3072];
    let mut indexes = [0u16; 256];
    let mut components = [0u64; 2048];
    let long = are_full(inputs, outputs, current, following, standing);
    let count = prepare(
        file,
        long,
        inputs,
        outputs,
        current,
        following,
        standing,
        counts,
        &mut index,
        &mut indexes,
        &mut components,
    )?;
    let entered = is_led_into(file, &index, &indexes, i);
    check_port(&components, count, entered, i, number)?;
    set_port(&components, inputs, outputs, i, number);
    Ok(())
}

// An edit that goes first: sets a component's port to a number and appends the component to the current list unless there. A refusal changes no
// table.
pub fn edit(
    file: &[u8],
    inputs: &mut [u64],
    outputs: &mut [u64],
    current: &mut [u16],
    following: &[u16],
    standing: &[u16],
    counts: SlowCounts,
    index: FlatIdx,
    number: u64,
) -> Result<SlowCounts, Refusal>
    ensures { let before = slow_tables_of inputs.old outputs.old current.old following.now
        standing.now counts in
        let after = slow_tables_of inputs.new outputs.new current.new following.now
        standing.now (slow_counts_after result counts) in
        SlowEdits file.now goes_first index.0 number before result after }
{
    set_or_refuse(
        file, inputs, outputs, current, following, standing, counts, index.0, number,
    )?;
    let mut left = counts;
    left.current = tables::append_new(current, counts.current, index.0 as u16);
    Ok(left)
}

// The old way of an edit: sets the port likewise and appends the component to the standing list unless there.
pub fn edit_standing(
    file: &[u8],
    inputs: &mut [u64],
    outputs: &mut [u64],
    current: &[u16],
    following: &[u16],
    standing: &mut [u16],
    counts: SlowCounts,
    index: FlatIdx,
    number: u64,
) -> Result<SlowCounts, Refusal>
    ensures { let before = slow_tables_of inputs.old outputs.old current.now following.now
        standing.old counts in
        let after = slow_tables_of inputs.new outputs.new current.now following.now
        standing.new (slow_counts_after result counts) in
        SlowEdits file.now stands index.0 number before result after }
{
    set_or_refuse(
        file, inputs, outputs, current, following, standing, counts, index.0, number,
    )?;
    let mut left = counts;
    left.standing = tables::append_new(standing, counts.standing, index.0 as u16);
    Ok(left)
}
