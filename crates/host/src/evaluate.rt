// Evaluating one component, called from C.
ghost use Rattle.std.specs.Prelude.{◌≡◌, [], ◌∷◌};
ghost use Rattle.host.specs.Host.{fields_from, CallEvaluates};

use kinds::Fields;
use words::lay;

// The word of an evaluation: which outputs changed.
fn moved_words(moved: u64) -> [u64; 1]
    ensures { result ≡ moved ∷ [] }
{
    [moved]
}

// Evaluates a component of these fields: its inputs' numbers and their widths, its outputs' numbers, which are written, and their
// widths, and the time. A word is lent for which of its outputs changed.
pub fn berxundar_evaluate(
    kind: u8,
    ins: u16,
    outs: u16,
    width: u16,
    parameter: u64,
    inputs: &[u64],
    entering: &[u64],
    outputs: &mut [u64],
    leaving: &[u64],
    time: u64,
    found: &mut [u64],
) -> u32
    ensures { CallEvaluates (fields_from kind ins outs width parameter) inputs.now entering.now outputs.old
        leaving.now time found.old result outputs.new found.new }
{
    if found.len() < 1 {
        return 131072;
    }
    let f = Fields {
        kind,
        inputs: ins,
        outputs: outs,
        width,
        parameter,
    };
    let answer = primitive::evaluate(f, inputs, entering, outputs, leaving, time);
    lay(found, answer.map(moved_words))
}
