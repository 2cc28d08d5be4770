// The table of kinds. Rule: docs/SPECIFICATION.md, "The drawing file".
ghost use Rattle.std.specs.Prelude.{◌≡◌, min};
ghost use Rattle.value.specs.Value.{widest, ones};
ghost use Rattle.kinds.specs.Kinds.{row, row_of, line, only, spans, primitive, obeys, input_width, output_width};

use crate::{Kind, is_kept, is_unknown};
use value::WIDEST;

// The fields of a component that say what it is; width is field C.
#[derive(Clone, Copy)]
pub struct Fields {
    pub kind: u8,
    pub inputs: u16,
    pub outputs: u16,
    pub width: u16,
    pub parameter: u64,
}

// The numbers from least to most.
#[derive(Clone, Copy)]
pub struct Span {
    pub least: u64,
    pub most: u64,
}

// A row of the table: what a component's fields may be, and the bits of each input and of each output.
#[derive(Clone, Copy)]
pub struct Row {
    pub inputs: Span,
    pub outputs: Span,
    pub width: Span,
    pub parameter: Span,
    pub inward: u64,
    pub outward: u64,
}

// The most inputs or outputs of a component.
const MOST: u64 = 64;

// The longest period of a Clock, 2^62.
const LONGEST: u64 = 4611686018427387904;

const NONE: Span = Span { least: 0, most: 0 };

const ONE: Span = Span { least: 1, most: 1 };

const ANY: Span = Span {
    least: 0,
    most: MOST,
};

const SOME: Span = Span {
    least: 1,
    most: MOST,
};

const BITS: Span = Span {
    least: 1,
    most: WIDEST,
};

const PERIODS: Span = Span {
    least: 1,
    most: LONGEST,
};

impl Span {
    fn spans(self, x: u64) -> bool
        ensures { result ≡ spans self x }
    {
        (self.least <= x) & (x <= self.most)
    }
}

fn only(a: u64) -> Span
    ensures { result ≡ only a }
{
    Span { least: a, most: a }
}

fn line(inputs: Span, outputs: Span, width: Span, parameter: Span, inward: u64, outward: u64) -> Row
    ensures { result ≡ line inputs outputs width parameter inward outward }
{
    Row {
        inputs,
        outputs,
        width,
        parameter,
        inward,
        outward,
    }
}

// The numbers that a Const of c bits may have.
fn values(c: u64) -> Span
    ensures { result ≡ record { least = 0; most = ones (min c widest) } }
{
    Span {
        least: 0,
        most: value::largest(c),
    }
}

// The table of kinds, for a component whose C is c and whose parameter is p.
fn table_row(kind: Kind, c: u64, p: u64) -> Row
    ensures { result ≡ row kind c p }
{
    match kind {
        Kind::Composite => line(ANY, ANY, NONE, NONE, 1, 1),
        Kind::And => line(ANY, ONE, NONE, NONE, 1, 1),
        Kind::Or => line(ANY, ONE, NONE, NONE, 1, 1),
        Kind::Not => line(ONE, ONE, NONE, NONE, 1, 1),
        Kind::Nand => line(ANY, ONE, NONE, NONE, 1, 1),
        Kind::Nor => line(ANY, ONE, NONE, NONE, 1, 1),
        Kind::Xor => line(SOME, ONE, NONE, NONE, 1, 1),
        Kind::Switch => line(NONE, ONE, NONE, NONE, 1, 1),
        Kind::Input => line(ONE, ONE, NONE, BITS, p, p),
        Kind::Output => line(ONE, ONE, NONE, BITS, p, p),
        Kind::Splitter => line(ONE, only(p), NONE, BITS, p, 1),
        Kind::Joiner => line(only(p), ONE, NONE, BITS, 1, p),
        Kind::Clock => line(NONE, ONE, NONE, PERIODS, 1, 1),
        Kind::Const => line(NONE, ONE, BITS, values(c), 1, c),
        Kind::Majority => line(SOME, ONE, NONE, NONE, 1, 1),
    }
}

// The row that a component must obey. A number that is no kind has the row of a composite: whoever asks tests the kind besides.
fn row_of(f: Fields) -> Row
    ensures { result ≡ row_of f }
{
    let kind = Kind::try_from(f.kind).unwrap_or(Kind::Composite);
    table_row(kind, f.width as u64, f.parameter)
}

// Whether a component is of a kind other than the composite's.
pub fn is_primitive(f: Fields) -> bool
    ensures { result ≡ primitive f }
{
    (1 <= f.kind) & (!is_kept(f.kind) & !is_unknown(f.kind))
}

// Whether a component obeys the table of kinds.
pub fn obeys(f: Fields) -> bool
    ensures { result ≡ obeys f }
{
    let row = row_of(f);
    !is_kept(f.kind)
        & !is_unknown(f.kind)
        & row.inputs.spans(f.inputs as u64)
        & row.outputs.spans(f.outputs as u64)
        & row.width.spans(f.width as u64)
        & row.parameter.spans(f.parameter)
}

// The bits of each input of a component.
pub fn input_width(f: Fields) -> u64
    ensures { result ≡ input_width f }
{
    row_of(f).inward
}

// The bits of each output.
pub fn output_width(f: Fields) -> u64
    ensures { result ≡ output_width f }
{
    row_of(f).outward
}
