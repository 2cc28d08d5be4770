// The lines of the listing in a lent buffer. Rule: docs/SPECIFICATION.md, "The lamp drawing and marked cases".
#![tactic(auto)]

ghost use Rattle.std.specs.Prelude.{[], ◌∷◌, ◌++◌, ◌≤◌, length, take};
ghost use Rattle.tables.specs.Tables.{tables_of, counts_of};
ghost use Rattle.tables.specs.Words.{RowInside, RowsInside, WiresInside, fields_in, id_in};
ghost use Rattle.text.specs.Text.{numeral, Puts};
ghost use Rattle.lines.specs.Lines.{component_line, components_text, wire_line, wires_text, round_line, against_text, refused_line};

use kinds::Refusal;
use names::put_kind;
use tables::{Counts, Wire};

// A number and a byte.
fn put_ended(out: &mut [u8], at: usize, number: u64, byte: u8) -> usize
    ensures { Puts out.old at (numeral number ++ (byte ∷ [])) out.new result }
{
    let next = text::put_number(out, at, number);
    text::put(out, next, byte)
}

// A component: its index, its kind and its id.
fn put_component(out: &mut [u8], at: usize, components: &[u64], i: usize) -> usize
    requires { RowInside components.now i }
    ensures { Puts out.old at (component_line i (fields_in components.now i).kind (id_in components.now i))
        out.new result }
{
    let kind = tables::kind_word(components, i);
    let id = tables::id_word(components, i);
    let index = put_ended(out, at, i as u64, b' ');
    let named = put_kind(out, index, kind);
    let blank = text::put(out, named, b' ');
    put_ended(out, blank, id, b'\n')
}

// A wire: the port it leaves and the port it enters.
fn put_wire(out: &mut [u8], at: usize, wire: Wire) -> usize
    ensures { Puts out.old at (wire_line wire) out.new result }
{
    let left = put_ended(out, at, wire.src.comp.0 as u64, b'.');
    let port = put_ended(out, left, wire.src.port as u64, b' ');
    let entered = put_ended(out, port, wire.dst.comp.0 as u64, b'.');
    put_ended(out, entered, wire.dst.port as u64, b'\n')
}

// A word and how many.
fn put_counted(out: &mut [u8], at: usize, word: &[u8], count: usize) -> usize
    ensures { Puts out.old at (word.now ++ numeral count ++ (10 ∷ [])) out.new result }
{
    let named = text::put_bytes(out, at, word);
    put_ended(out, named, count as u64, b'\n')
}

// The components: how many, and a line for each.
fn put_components(out: &mut [u8], at: usize, components: &[u64], count: usize) -> usize
    requires { RowsInside components.now count }
    ensures { Puts out.old at (components_text (tables_of components.now [] [] [] [] [] [] (counts_of count 0 0 0 0 0 0)))
        out.new result }
{
    let mut next = put_counted(out, at, b"components ", count);
    for i in 0..count {
        next = put_component(out, next, components, i);
    }
    next
}

// The wires: how many, and a line for each.
fn put_wires(out: &mut [u8], at: usize, wires: &[u16], count: usize) -> usize
    requires { WiresInside wires.now count }
    ensures { Puts out.old at (wires_text (tables_of [] [] [] wires.now [] [] [] (counts_of 0 0 0 count 0 0 0)))
        out.new result }
{
    let mut next = put_counted(out, at, b"wires ", count);
    for k in 0..count {
        next = put_wire(out, next, tables::wire_at(wires, k));
    }
    next
}

// The components and the wires of tables. Crate listing calls it for the net that a load left.
pub fn put_net(
    out: &mut [u8],
    at: usize,
    components: &[u64],
    wires: &[u16],
    counts: Counts,
) -> usize
    requires { RowsInside components.now counts.components × WiresInside wires.now counts.wires }
    ensures { let net = tables_of components.now [] [] wires.now [] [] [] counts in
        Puts out.old at (components_text net ++ wires_text net) out.new result }
{
    let next = put_components(out, at, components, counts.components);
    put_wires(out, next, wires, counts.wires)
}

// A round, and the current list that it leaves. Crate running calls it for a list of a net.
pub fn put_round(out: &mut [u8], at: usize, round: u64, current: &[u16], count: usize) -> usize
    requires { count ≤ length current.now }
    ensures { Puts out.old at (round_line round (take count current.now)) out.new result }
{
    let named = text::put_bytes(out, at, b"round ");
    let numbered = text::put_number(out, named, round);
    let next = text::put_bytes(out, numbered, b" next");
    let listed = text::put_numbers(out, next, &current[..count]);
    text::put(out, listed, b'\n')
}

// The earlier record of two that meet; nothing where the number tells of no meeting.
fn put_against(out: &mut [u8], at: usize, refusal: Refusal) -> usize
    ensures { Puts out.old at (against_text refusal) out.new result }
{
    let number = refusal.number;
    if (number == 13) | (number == 22) | (number == 23) {
        let named = text::put_bytes(out, at, b" against ");
        return text::put_number(out, named, refusal.earlier as u64);
    }
    text::put_bytes(out, at, b"")
}

// The line of a refused file: what, where, and against which record.
pub fn put_refused(out: &mut [u8], at: usize, refusal: Refusal) -> usize
    ensures { Puts out.old at (refused_line refusal) out.new result }
{
    let named = text::put_bytes(out, at, b"refused ");
    let numbered = text::put_number(out, named, refusal.number as u64);
    let parted = text::put_bytes(out, numbered, b" at ");
    let placed = text::put_number(out, parted, refusal.position as u64);
    let told = put_against(out, placed, refusal);
    text::put(out, told, b'\n')
}
