// The components of a net, in one pass: a function for each clause that asks something of one component. "components are of kinds 1 to 13 or
// 15, obey the table of kinds, have distinct ids, ports follow each other without gaps, values fit, each Const's output is its value"
ghost use Rattle.std.specs.Prelude.{◌≡◌, true, ◌&&◌, [], ◌+◌, ◌<◌, ◌≤◌, length, set};
ghost use Rattle.kinds.specs.Kinds.{input_width, output_width};
ghost use Rattle.tables.specs.Words.{RowInside, RowsInside, fields_in, uncounted};
ghost use Rattle.net.specs.Net.{input_sum, output_sum};
ghost use Rattle.net.specs.Parts.{lent, InputsInside, OutputsInside, obeyed_at, follow_at, within_at, stands_at, holds_at, rows_right, Widths};

use crate::ids::{id_fits, id_new};
use crate::values::{row_fits, row_held};
use tables::Counts;

// Where the next component's inputs and outputs start.
#[derive(Clone, Copy)]
struct Next {
    input: usize,
    output: usize,
}

// Whether component i is a primitive and obeys the table of kinds. A word that no field can hold obeys nothing.
fn row_obeyed(components: &[u64], i: usize) -> bool
    requires { RowInside components.now i }
    ensures { result ≡ obeyed_at components.now i }
{
    if !tables::fields_fit(components, i) {
        return false;
    }
    let f = tables::fields_at(components, i);
    kinds::is_primitive(f) & kinds::obeys(f)
}

// Where the ports behind those of component i start.
fn next_after(components: &[u64], next: Next, i: usize) -> Next
    requires { RowInside components.now i × (obeyed_at components.now i ≡ true) × (next.input ≤ 1024) × (next.output ≤ 1024) }
    ensures { (result.input ≡ next.input + (fields_in components.now i).inputs)
        × (result.output ≡ next.output + (fields_in components.now i).outputs) }
{
    let input = next.input + tables::input_count(components, i);
    let output = next.output + tables::output_count(components, i);
    Next { input, output }
}

// Whether the ports of component i start where those before it end, and end within the counts.
fn row_follows(components: &[u64], counts: Counts, next: Next, i: usize) -> bool
    requires { RowInside components.now i × (obeyed_at components.now i ≡ true) × (next.input ≤ 1024) × (next.output ≤ 1024)
        × (next.input ≡ input_sum (uncounted components.now []) i) × (next.output ≡ output_sum (uncounted components.now []) i) }
    ensures { result ≡ (follow_at components.now i && within_at components.now counts i) }
{
    let after = next_after(components, next, i);
    let first_input = tables::first_input(components, i);
    let first_output = tables::first_output(components, i);
    (first_input == next.input)
        & (first_output == next.output)
        & ((after.input <= counts.inputs) & (after.output <= counts.outputs))
}

// Whether component i obeys the table of kinds, its id has 32 bits and its ports follow. Later tests rest on earlier ones: the order
// matters.
fn row_stands(components: &[u64], counts: Counts, next: Next, i: usize) -> bool
    requires { RowInside components.now i × (next.input ≤ 1024) × (next.output ≤ 1024)
        × (next.input ≡ input_sum (uncounted components.now []) i) × (next.output ≡ output_sum (uncounted components.now []) i) }
    ensures { result ≡ stands_at components.now counts i }
{
    if !row_obeyed(components, i) {
        return false;
    }
    id_fits(components, i) & row_follows(components, counts, next, i)
}

// Whether the values of component i fit its ports and, where it is a Const, its output is its value. The widths of its ports are noted on
// the way, for the pass over the wires.
fn row_holds(
    components: &[u64],
    inputs: &[u64],
    outputs: &[u64],
    i: usize,
    entering: &mut [u8; 256],
    leaving: &mut [u8; 256],
) -> bool
    requires { RowInside components.now i × (obeyed_at components.now i ≡ true) × (i < 256)
        × InputsInside components.now inputs.now i × OutputsInside components.now outputs.now i }
    ensures { (result ≡ holds_at components.now inputs.now outputs.now i)
        × (entering.new ≡ set entering.old i (input_width (fields_in components.now i)))
        × (leaving.new ≡ set leaving.old i (output_width (fields_in components.now i))) }
{
    let f = tables::fields_at(components, i);
    let inward = kinds::input_width(f);
    let outward = kinds::output_width(f);
    entering[i] = inward as u8;
    leaving[i] = outward as u8;
    if !row_fits(components, inputs, outputs, inward, outward, i) {
        return false;
    }
    row_held(components, outputs, i)
}

// Whether all components are what a net asks of them, and no two have the same id. The widths of their ports are left in the two tables.
pub(crate) fn rows_right(
    components: &[u64],
    inputs: &[u64],
    outputs: &[u64],
    counts: Counts,
    entering: &mut [u8; 256],
    leaving: &mut [u8; 256],
) -> bool
    requires { (counts.components ≤ 256) × (counts.inputs ≤ 1024) × (counts.outputs ≤ 1024)
        × RowsInside components.now counts.components × (1024 ≤ length inputs.now) × (1024 ≤ length outputs.now)
        × Widths components.now 0 entering.old leaving.old }
    ensures { (result ≡ rows_right (lent components.now inputs.now outputs.now [] counts))
        × (result ≡ true → Widths components.now counts.components entering.new leaving.new) }
{
    let n = counts.components;
    let mut marks = [0u8; 4096];
    let mut next = Next {
        input: 0,
        output: 0,
    };
    for i in 0..n {
        if !row_stands(components, counts, next, i) {
            return false;
        }
        if !row_holds(components, inputs, outputs, i, entering, leaving) {
            return false;
        }
        if !id_new(components, &mut marks, i) {
            return false;
        }
        next = next_after(components, next, i);
    }
    (counts.inputs == next.input) & (counts.outputs == next.output)
}
