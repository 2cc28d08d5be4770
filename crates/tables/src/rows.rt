// The words of a component: read one by one, compared, taken together as its fields, and laid. Rule: docs/SPECIFICATION.md, "Numbers
// given back". Words are compared whole, so a kind word of 263 is no Switch. No other crate knows their order. A component's words
// stand in the table: callers know it of every component below the count, in tables of full size.
ghost use Rattle.std.specs.Prelude.{◌≡◌, true, ◌+◌, ◌<◌, ◌≤◌, eqb, length};
ghost use Rattle.std.proofs.lemmas.List.Edits.{sets};
ghost use Rattle.kinds.specs.Kinds.{is};
ghost use Rattle.tables.specs.Tables.{word_in, component_words};
ghost use Rattle.tables.specs.Words.{fields_in, id_in, first_input_in, first_output_in, RowInside, row_place, fields_fit};

use kinds::{Fields, Id, Kind};

// Word k of component i.
fn word_of(components: &[u64], i: usize, k: usize) -> u64
    requires { (k < 8) × RowInside components.now i }
    ensures { result ≡ word_in components.now i k }
{
    components[8 * i + k]
}

// The word of component i that should be a kind's number. Crate lines calls it, for a component whose words stand in the table.
pub fn kind_word(components: &[u64], i: usize) -> u64
    requires { RowInside components.now i }
    ensures { result ≡ (fields_in components.now i).kind }
{
    word_of(components, i, 0)
}

// The word that should be an id. Crates net and lines call it likewise.
pub fn id_word(components: &[u64], i: usize) -> u64
    requires { RowInside components.now i }
    ensures { result ≡ id_in components.now i }
{
    word_of(components, i, 1)
}

// Its parameter. Crate net calls it likewise.
pub fn parameter_word(components: &[u64], i: usize) -> u64
    requires { RowInside components.now i }
    ensures { result ≡ (fields_in components.now i).parameter }
{
    word_of(components, i, 3)
}

// How many inputs component i has. Crates net and questions call it likewise.
pub fn input_count(components: &[u64], i: usize) -> usize
    requires { RowInside components.now i }
    ensures { result ≡ (fields_in components.now i).inputs }
{
    word_of(components, i, 4) as usize
}

// How many outputs. Likewise.
pub fn output_count(components: &[u64], i: usize) -> usize
    requires { RowInside components.now i }
    ensures { result ≡ (fields_in components.now i).outputs }
{
    word_of(components, i, 5) as usize
}

// Where its inputs start in their table. Crates net, rounds, judging, simulator and questions call it likewise.
pub fn first_input(components: &[u64], i: usize) -> usize
    requires { RowInside components.now i }
    ensures { result ≡ first_input_in components.now i }
{
    word_of(components, i, 6) as usize
}

// Where its outputs start. Likewise.
pub fn first_output(components: &[u64], i: usize) -> usize
    requires { RowInside components.now i }
    ensures { result ≡ first_output_in components.now i }
{
    word_of(components, i, 7) as usize
}

// Whether component i is of a kind. Crates net, rounds, judging and simulator call it likewise.
pub fn is_kind(components: &[u64], i: usize, kind: Kind) -> bool
    requires { RowInside components.now i }
    ensures { result ≡ is kind (fields_in components.now i) }
{
    kind_word(components, i) == u8::from(kind) as u64
}

// Whether component i has this id. Crates net and questions call it likewise.
pub fn has_id(components: &[u64], i: usize, id: Id) -> bool
    requires { RowInside components.now i }
    ensures { result ≡ eqb (id_in components.now i) id.0 }
{
    id_word(components, i) == id.0 as u64
}

// Whether the words of component i are no larger than fields of a component can be. Crate net calls it likewise.
pub fn fields_fit(components: &[u64], i: usize) -> bool
    requires { RowInside components.now i }
    ensures { result ≡ fields_fit (fields_in components.now i) }
{
    let kind = word_of(components, i, 0);
    let inputs = word_of(components, i, 4);
    let outputs = word_of(components, i, 5);
    let width = word_of(components, i, 2);
    (kind < 256) & (inputs < 65536) & (outputs < 65536) & (width < 65536)
}

// The fields of component i, whose words fit. Crates net, rounds, judging, simulator, questions and slow call it for
// the components of a net.
pub fn fields_at(components: &[u64], i: usize) -> Fields
    requires { RowInside components.now i × (fields_fit (fields_in components.now i) ≡ true) }
    ensures { result ≡ fields_in components.now i }
{
    Fields {
        kind: word_of(components, i, 0) as u8,
        inputs: word_of(components, i, 4) as u16,
        outputs: word_of(components, i, 5) as u16,
        width: word_of(components, i, 2) as u16,
        parameter: word_of(components, i, 3),
    }
}

// Lays the words of component i, whose ports start at `inputs` and `outputs` of their tables. Crate laying calls it for the
// primitives of an accepted drawing, for which a table of full size has room.
pub fn lay_row(
    components: &mut [u64],
    i: usize,
    id: Id,
    fields: Fields,
    inputs: usize,
    outputs: usize,
)
    requires { row_place i + 8 ≤ length components.old }
    ensures { components.new ≡ sets components.old (row_place i) (component_words id.0 fields inputs outputs) }
{
    let at = 8 * i;
    components[at] = fields.kind as u64;
    components[at + 1] = id.0 as u64;
    components[at + 2] = fields.width as u64;
    components[at + 3] = fields.parameter;
    components[at + 4] = fields.inputs as u64;
    components[at + 5] = fields.outputs as u64;
    components[at + 6] = inputs as u64;
    components[at + 7] = outputs as u64;
}
