// Of one component: "values fit, each Const's output is its value"
ghost use Rattle.std.specs.Prelude.{◌≡◌, true, ◌&&◌, [], ◌+◌, ◌≤◌, length};
ghost use Rattle.value.specs.Value.{all_fit};
ghost use Rattle.tables.specs.Tables.{numbers, inputs_at, outputs_at};
ghost use Rattle.tables.specs.Words.{RowInside, uncounted};
ghost use Rattle.net.specs.Parts.{InputsInside, OutputsInside, obeyed_at, held_at};

use kinds::Kind;
use value::Value;

// Whether the values of `count` ports of a width that start at `start` fit.
fn all_fit(ports: &[u64], start: usize, count: usize, width: u64) -> bool
    requires { start + count ≤ length ports.now }
    ensures { result ≡ all_fit width (numbers ports.now start count) }
{
    for number in &ports[start..start + count] {
        let held = Value {
            number: *number,
            width,
        };
        if !held.fits().fits {
            return false;
        }
    }
    true
}

// Whether the values of component i fit its ports, each of whose inputs has `inward` bits and each output `outward`. Crates net and slow call
// it, as the next, for a component whose ports stand in the tables.
pub fn row_fits(
    components: &[u64],
    inputs: &[u64],
    outputs: &[u64],
    inward: u64,
    outward: u64,
    i: usize,
) -> bool
    requires { RowInside components.now i × InputsInside components.now inputs.now i × OutputsInside components.now outputs.now i }
    ensures { result ≡ (all_fit inward (inputs_at (uncounted components.now []) inputs.now i)
        && all_fit outward (outputs_at (uncounted components.now []) outputs.now i)) }
{
    let first_input = tables::first_input(components, i);
    let input_count = tables::input_count(components, i);
    if !all_fit(inputs, first_input, input_count, inward) {
        return false;
    }
    let first_output = tables::first_output(components, i);
    let output_count = tables::output_count(components, i);
    all_fit(outputs, first_output, output_count, outward)
}

// Whether component i, where it is a Const, holds its value.
pub fn row_held(components: &[u64], outputs: &[u64], i: usize) -> bool
    requires { RowInside components.now i × (obeyed_at components.now i ≡ true) × OutputsInside components.now outputs.now i }
    ensures { result ≡ held_at components.now outputs.now i }
{
    if !tables::is_kind(components, i, Kind::Const) {
        return true;
    }
    let held = tables::word(outputs, tables::first_output(components, i));
    held == tables::parameter_word(components, i)
}
