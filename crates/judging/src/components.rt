// Components judged: whether they have the outputs of their functions.
ghost use Rattle.std.specs.Prelude.{◌≡◌, true, false, List, [], ◌∷◌, ◌++◌, ℕ, ◌+◌, ◌≤◌, ◌<◌, length, get_or, take, eqb};
ghost use Rattle.lists.specs.Lists.{from, every};
ghost use Rattle.kinds.specs.declared.Kind.TheVariants.{Switch, Const};
ghost use Rattle.kinds.specs.Kinds.{is};
ghost use Rattle.tables.specs.Words.{no_counts, fields_in};
ghost use Rattle.net.specs.Parts.{lent};
ghost use Rattle.rounds.specs.Links.{IsListed};
ghost use Rattle.judging.specs.Judged.{has_outputs, component_agrees};
ghost use Rattle.judging.specs.Steps.{CanJudge, MarkedAgree};

use kinds::Kind;

// Whether `count` outputs, which start at `first` of their table, are those that they should be.
fn outputs_are(outputs: &[u64], first: usize, should: &[u64], count: usize) -> bool
    requires { (first + count ≤ length outputs.now) × (count ≤ length should.now) }
    ensures { result ≡ every (λ p. eqb (get_or outputs.now (first + p) 0) (get_or should.now p 0)) (from 0 count) }
{
    outputs[first..first + count] == should[..count]
}

// Whether component i, no Switch and no Const, has the outputs of its function, which are worked out in `should`.
fn has_outputs(
    components: &[u64],
    inputs: &[u64],
    outputs: &[u64],
    i: usize,
    should: &mut [u64],
) -> bool
    requires { (64 ≤ length should.old) × CanJudge (lent components.now inputs.now outputs.now [] no_counts) i
        × (is Switch (fields_in components.now i) ≡ false) × (is Const (fields_in components.now i) ≡ false) }
    ensures { result ≡ has_outputs (lent components.now inputs.now outputs.now [] no_counts) i }
{
    let f = tables::fields_at(components, i);
    let input = tables::first_input(components, i);
    let output = tables::first_output(components, i);
    let input_end = input + f.inputs as usize;
    let count = f.outputs as usize;
    primitive::update(f, &inputs[input..input_end], &mut should[..count], 0);
    outputs_are(outputs, output, should, count)
}

// Whether component i is a Switch or a Clock, or has the outputs of its function. A Const of a net has: check 16 has seen its value.
fn component_agrees(
    components: &[u64],
    inputs: &[u64],
    outputs: &[u64],
    i: usize,
    should: &mut [u64],
) -> bool
    requires { (64 ≤ length should.old) × CanJudge (lent components.now inputs.now outputs.now [] no_counts) i }
    ensures { result ≡ component_agrees (lent components.now inputs.now outputs.now [] no_counts) i }
{
    if tables::is_kind(components, i, Kind::Switch) {
        return true;
    }
    if tables::is_kind(components, i, Kind::Clock) {
        return true;
    }
    if tables::is_kind(components, i, Kind::Const) {
        return true;
    }
    has_outputs(components, inputs, outputs, i, should)
}

// Judges component i unless it is marked, and marks it: what is marked has been judged and agrees.
fn judge_once(
    components: &[u64],
    inputs: &[u64],
    outputs: &[u64],
    i: usize,
    marks: &mut [u8; 256],
    should: &mut [u64],
) -> bool
    requires { (64 ≤ length should.old) × CanJudge (lent components.now inputs.now outputs.now [] no_counts) i
        × MarkedAgree (lent components.now inputs.now outputs.now [] no_counts) marks.old }
    ensures { (result ≡ component_agrees (lent components.now inputs.now outputs.now [] no_counts) i)
        × (result ≡ true → MarkedAgree (lent components.now inputs.now outputs.now [] no_counts) marks.new)
        × ((xs : List ℕ) → IsListed marks.old xs → IsListed marks.new (xs ++ (i ∷ []))) }
{
    if marks[i] != 0 {
        return true;
    }
    marks[i] = 1;
    component_agrees(components, inputs, outputs, i, should)
}

// Judges what the first `count` entries of a list name, each component once, and ends at the first that does not agree.
pub(crate) fn judge_list(
    components: &[u64],
    inputs: &[u64],
    outputs: &[u64],
    list: &[u16],
    count: usize,
    marks: &mut [u8; 256],
    should: &mut [u64],
) -> bool
    requires { (64 ≤ length should.old) × (count ≤ length list.now)
        × ((j : ℕ) → j < count → CanJudge (lent components.now inputs.now outputs.now [] no_counts) (get_or list.now j 0))
        × MarkedAgree (lent components.now inputs.now outputs.now [] no_counts) marks.old }
    ensures { (result ≡ every (component_agrees (lent components.now inputs.now outputs.now [] no_counts))
        (take count list.now))
        × (result ≡ true → MarkedAgree (lent components.now inputs.now outputs.now [] no_counts) marks.new
        × ((xs : List ℕ) → IsListed marks.old xs → IsListed marks.new (xs ++ take count list.now))) }
{
    for entry in &list[..count] {
        if !judge_once(components, inputs, outputs, *entry as usize, marks, should) {
            return false;
        }
    }
    true
}
