// The names of the kinds in a lent buffer. Rule: docs/SPECIFICATION.md, "The lamp drawing and marked cases".
#![tactic(auto)]

ghost use Rattle.std.specs.Prelude.{◌≡◌};
ghost use Rattle.kinds.specs.Kinds.{seen_as, kind_of};
ghost use Rattle.text.specs.Text.{Puts};
ghost use Rattle.names.specs.Names.{name_of};

use kinds::{Kind, NoKind};

// The name of a kind. A composite is never listed, and has none.
fn put_name(out: &mut [u8], at: usize, kind: Kind) -> usize
    ensures { Puts out.old at (name_of kind) out.new result }
{
    match kind {
        Kind::Composite => text::put_bytes(out, at, b""),
        Kind::And => text::put_bytes(out, at, b"And"),
        Kind::Or => text::put_bytes(out, at, b"Or"),
        Kind::Not => text::put_bytes(out, at, b"Not"),
        Kind::Nand => text::put_bytes(out, at, b"Nand"),
        Kind::Nor => text::put_bytes(out, at, b"Nor"),
        Kind::Xor => text::put_bytes(out, at, b"Xor"),
        Kind::Switch => text::put_bytes(out, at, b"Switch"),
        Kind::Input => text::put_bytes(out, at, b"Input"),
        Kind::Output => text::put_bytes(out, at, b"Output"),
        Kind::Splitter => text::put_bytes(out, at, b"Splitter"),
        Kind::Joiner => text::put_bytes(out, at, b"Joiner"),
        Kind::Clock => text::put_bytes(out, at, b"Clock"),
        Kind::Const => text::put_bytes(out, at, b"Const"),
        Kind::Majority => text::put_bytes(out, at, b"Majority"),
    }
}

// What a word that should be a kind's number is read as.
fn seen_as(word: u64) -> Result<Kind, NoKind>
    ensures { result ≡ seen_as word }
{
    let number = u8::try_from(word).map_err(|_| NoKind::Unknown)?;
    Kind::try_from(number)
}

// The name of the kind of a number; a number that is no kind has none. Crate lines calls it.
pub fn put_kind(out: &mut [u8], at: usize, number: u64) -> usize
    ensures { Puts out.old at (name_of (kind_of number)) out.new result }
{
    let kind = seen_as(number).unwrap_or(Kind::Composite);
    put_name(out, at, kind)
}
