// What a look at a component shows. Rule: docs/SPECIFICATION.md, "Looking at a box". All functions are handed an accepted drawing with its
// index filled, and tables that hold its primitives.
ghost use Rattle.std.specs.Prelude.{◌≡◌, false, map, ◌+◌, ◌<◌, ◌≤◌, length};
ghost use Rattle.std.proofs.lemmas.List.Edits.{sets};
ghost use Rattle.lists.specs.Lists.{overlay};
ghost use Rattle.component.specs.Record.{record_at, record_count, inputs_of, outputs_of};
ghost use Rattle.index.specs.Index.{IsIndex};
ghost use Rattle.flatten.specs.Verdict.{verdict};
ghost use Rattle.laying.specs.Laying.{Ready};
ghost use Rattle.boxes.specs.Boxes.{dangling, ports_on};
ghost use Rattle.look.specs.Look.{shown};
ghost use Rattle.look.specs.Looking.{RowsHeld, ported, value_shown, numbers_on, widths_on};

use crate::Looked;
use boxes::port_shown;
use component::fields_at;
use laying::{flat_pin, index_flat};
use questions::{Side, value_at};
use value::Value;

// The value that port i of component c shows on a side.
fn value_shown(
    file: &[u8],
    index: &[u16],
    indexes: &[u16],
    components: &[u64],
    inputs: &[u64],
    outputs: &[u64],
    side: Side,
    c: usize,
    i: u16,
) -> Value
    requires ready { Ready file.now index.now indexes.now }
    requires rows_held { RowsHeld (record_at file.now) (record_count file.now) components.now inputs.now outputs.now }
    requires i_bound { (i < ports_on side (record_at file.now c)) × (dangling (record_at file.now) (record_count file.now) c ≡ false) }
    ensures { result ≡ value_shown (record_at file.now) (record_count file.now)
        (ported components.now inputs.now outputs.now) side c i }
{
    let end = flat_pin(indexes, port_shown(file, index, side, c, i));
    let comp = end.comp;
    value_at(components, inputs, outputs, side, comp.0, end.port as usize)
}

// Shows the ports of component c on a side, `count` of them: numbers and widths, from a place of both lists on.
fn show_side(
    file: &[u8],
    index: &[u16],
    indexes: &[u16],
    components: &[u64],
    inputs: &[u64],
    outputs: &[u64],
    side: Side,
    c: usize,
    count: u16,
    numbers: &mut [u64],
    widths: &mut [u64],
    at: usize,
)
    requires ready { Ready file.now index.now indexes.now }
    requires rows_held { RowsHeld (record_at file.now) (record_count file.now) components.now inputs.now outputs.now }
    requires count_value { (count ≡ ports_on side (record_at file.now c)) × (dangling (record_at file.now) (record_count file.now) c ≡ false) }
    requires count_in_bounds { (at + count ≤ length numbers.old) × (at + count ≤ length widths.old) }
    ensures numbers_after { numbers.new ≡ sets numbers.old at (numbers_on (record_at file.now) (record_count file.now)
        (ported components.now inputs.now outputs.now) side c) }
    ensures widths_after { widths.new ≡ sets widths.old at (widths_on (record_at file.now) (record_count file.now)
        (ported components.now inputs.now outputs.now) side c) }
{
    for i in 0..count {
        let value = value_shown(
            file, index, indexes, components, inputs, outputs, side, c, i,
        );
        let k = at + i as usize;
        numbers[k] = value.number;
        widths[k] = value.width;
    }
}

// Shows all ports of component c, inputs first, then outputs.
pub(crate) fn show(
    file: &[u8],
    index: &[u16],
    components: &[u64],
    inputs: &[u64],
    outputs: &[u64],
    c: usize,
    numbers: &mut [u64],
    widths: &mut [u64],
) -> Looked
    requires file_value { (verdict file.now ≡ Ok tt) × IsIndex file.now index.now × (256 ≤ length numbers.old) × (256 ≤ length widths.old) }
    requires rows_held { RowsHeld (record_at file.now) (record_count file.now) components.now inputs.now outputs.now }
    requires c_value { dangling (record_at file.now) (record_count file.now) c ≡ false }
    ensures value { result ≡ record { inputs = inputs_of (record_at file.now c); outputs = outputs_of (record_at file.now c) } }
    ensures numbers_after { numbers.new ≡ overlay (map (λ (v : Value). v.number) (shown (record_at file.now) (record_count file.now)
        (ported components.now inputs.now outputs.now) c)) numbers.old }
    ensures widths_after { widths.new ≡ overlay (map (λ (v : Value). v.width) (shown (record_at file.now) (record_count file.now)
        (ported components.now inputs.now outputs.now) c)) widths.old }
{
    let mut indexes = [0u16; 256];
    index_flat(file, &mut indexes);
    let fields = fields_at(file, c);
    let first = fields.inputs as usize;
    show_side(
        file,
        index,
        &indexes,
        components,
        inputs,
        outputs,
        Side::Inputs,
        c,
        fields.inputs,
        numbers,
        widths,
        0,
    );
    show_side(
        file,
        index,
        &indexes,
        components,
        inputs,
        outputs,
        Side::Outputs,
        c,
        fields.outputs,
        numbers,
        widths,
        first,
    );
    Looked {
        inputs: first,
        outputs: fields.outputs as usize,
    }
}
