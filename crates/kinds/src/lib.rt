// The kinds of component, their numbers and their table. Rule: docs/SPECIFICATION.md, "The drawing file". Source: primitive.rs, `Primitive`.
#![tactic(auto)]

mod answers;
mod table;

ghost use Rattle.std.specs.Prelude.{◌≡◌, ◌<◌};
ghost use Rattle.kinds.specs.Kinds.{number_of, seen_as, for_custom, unknown};
ghost use Rattle.kinds.specs.Marks.{mark_of};

pub use answers::{Refusal, refused_by};
pub use table::{Fields, Row, Span, input_width, is_primitive, obeys, output_width};

// An id as drawn.
#[derive(Clone, Copy, PartialEq, Eq)]
pub struct Id(pub u32);

// To whoever adds a kind: append yours after the last, never between two. A kind's number is saved in the drawing files of every
// gate, and all of them are read by this table: a kind put in before Nand would make each Nand drawn so far another gate, and
// a screen would light a closed run. 14 is kept for the Rust's `Custom`, and 15 is Majority: the next number is 16. Besides this
// file the table of kinds, the rules and the names want a line, and so do the definitions of all four; docs/CHECKLISTS.md has
// the whole way.
#[derive(Clone, Copy, PartialEq, Eq)]
pub enum Kind {
    Composite = 0,
    And = 1,
    Or = 2,
    Not = 3,
    Nand = 4,
    Nor = 5,
    Xor = 6,
    Switch = 7,
    Input = 8,
    Output = 9,
    Splitter = 10,
    Joiner = 11,
    Clock = 12,
    Const = 13,
    Majority = 15,
}

// A number that is no kind, and stays none.
pub const NO_KIND: u8 = 255;

// Why a number is no kind: it is kept for Custom, or it is none at all.
#[derive(Clone, Copy, PartialEq, Eq)]
pub enum NoKind {
    Kept,
    Unknown,
}

// The number of a kind, as saved in files.
impl From<Kind> for u8 {
    ghost from_gives = { λ kind number. number ≡ number_of kind };

    fn from(kind: Kind) -> u8 {
        kind as u8
    }
}

// The same by name: crate checks calls it.
pub fn number_of(kind: Kind) -> u8
    ensures { result ≡ number_of kind }
{
    u8::from(kind)
}

// What a number is read as, the other way round.
impl TryFrom<u8> for Kind {
    type Error = NoKind;

    ghost try_from_gives = { λ number read. read ≡ seen_as number };

    fn try_from(number: u8) -> Result<Kind, NoKind> {
        match number {
            0 => Ok(Kind::Composite),
            1 => Ok(Kind::And),
            2 => Ok(Kind::Or),
            3 => Ok(Kind::Not),
            4 => Ok(Kind::Nand),
            5 => Ok(Kind::Nor),
            6 => Ok(Kind::Xor),
            7 => Ok(Kind::Switch),
            8 => Ok(Kind::Input),
            9 => Ok(Kind::Output),
            10 => Ok(Kind::Splitter),
            11 => Ok(Kind::Joiner),
            12 => Ok(Kind::Clock),
            13 => Ok(Kind::Const),
            14 => Err(NoKind::Kept),
            15 => Ok(Kind::Majority),
            _ => Err(NoKind::Unknown),
        }
    }
}

// Whether a number is the one kept for Custom.
pub fn is_kept(number: u8) -> bool
    ensures { result ≡ for_custom number }
{
    matches!(Kind::try_from(number), Err(NoKind::Kept))
}

// Whether a number is no kind, nor kept for one.
pub fn is_unknown(number: u8) -> bool
    ensures { result ≡ unknown number }
{
    matches!(Kind::try_from(number), Err(NoKind::Unknown))
}

// The mark of an id, of 4,096: equal ids have equal marks. Crates checks and net search for an id only where its mark is set. The product
// spreads ids that follow each other, and multiples of a power of two.
pub fn mark_of(id: Id) -> usize
    ensures { (result ≡ mark_of id.0) × (result < 4096) }
{
    (id.0 as u64 * 2654435769 % 4294967296 / 1048576) as usize
}
