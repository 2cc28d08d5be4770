// Evaluating a single component, on any fields, values and time. Rules: docs/SPECIFICATION.md, "Numbers given back" and "Rounds".
ghost use Rattle.std.specs.Prelude.{◌≡◌, ◌≤◌, length};
ghost use Rattle.kinds.specs.Given.{refusing};
ghost use Rattle.primitive.specs.Evaluate.{fitting, evaluate_number, Evaluates};

use crate::rules::update;
use kinds::{
    Fields, Refusal, input_width, is_kept, is_primitive, is_unknown, obeys, output_width,
    refused_by,
};
use value::Value;

// Whether the values of the first count ports, with these numbers and widths, fit ports of a width.
fn all_fit(width: u64, count: usize, numbers: &[u64], widths: &[u64]) -> bool
    requires { (count ≤ length numbers.now) × (count ≤ length widths.now) }
    ensures { result ≡ fitting width count numbers.now widths.now }
{
    let mut values = numbers[..count].iter().zip(&widths[..count]);
    values.all(|(number, own)| {
        let held = Value {
            number: *number,
            width: *own,
        };
        held.fits_in(width).fits
    })
}

// What refuses the evaluation, in the order of the checks.
fn check_evaluation(
    f: Fields,
    inputs: &[u64],
    entering: &[u64],
    outputs: &[u64],
    leaving: &[u64],
) -> Result<(), Refusal>
    ensures { result ≡ refusing (evaluate_number f inputs.now entering.now outputs.now leaving.now) }
{
    let n = f.inputs as usize;
    let m = f.outputs as usize;
    if is_kept(f.kind) {
        return Err(refused_by(7));
    }
    if is_unknown(f.kind) {
        return Err(refused_by(8));
    }
    if !(is_primitive(f) & obeys(f)) {
        return Err(refused_by(9));
    }
    if (inputs.len() < n) | (entering.len() < n) | (outputs.len() < m) | (leaving.len() < m) {
        return Err(refused_by(2));
    }
    if !(all_fit(input_width(f), n, inputs, entering)
        & all_fit(output_width(f), m, outputs, leaving))
    {
        return Err(refused_by(19));
    }
    Ok(())
}

// Evaluates a component of these fields: its inputs' numbers and their widths, its outputs' numbers, which are written, and their
// widths, and the time. The answer is which of its outputs changed. A refusal leaves the outputs as they were; numbers past the
// component's ports are kept.
pub fn evaluate(
    f: Fields,
    inputs: &[u64],
    entering: &[u64],
    outputs: &mut [u64],
    leaving: &[u64],
    time: u64,
) -> Result<u64, Refusal>
    ensures { Evaluates f inputs.now entering.now outputs.old leaving.now time result outputs.new }
{
    check_evaluation(f, inputs, entering, outputs, leaving)?;
    let n = f.inputs as usize;
    let m = f.outputs as usize;
    let moved = update(f, &inputs[..n], &mut outputs[..m], time);
    Ok(moved)
}
