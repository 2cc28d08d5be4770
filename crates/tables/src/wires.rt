// The words of a wire, read and laid. No other crate knows their order.
ghost use Rattle.std.specs.Prelude.{◌≡◌, ◌+◌, ◌*◌, ◌<◌, ◌≤◌, length, get_or};
ghost use Rattle.std.proofs.lemmas.List.Edits.{sets};
ghost use Rattle.tables.specs.Tables.{end_at, wire_words};
ghost use Rattle.tables.specs.Words.{wire_in, wire_place, WireInside};

use crate::{End, FlatIdx, Wire};

// Word j of wire k.
fn word_of(wires: &[u16], k: usize, j: usize) -> u16
    requires { (j < 4) × WireInside wires.now k }
    ensures { result ≡ get_or wires.now (4 * k + j) 0 }
{
    wires[4 * k + j]
}

// The end of wire k whose words start at word j of it.
fn end_at(wires: &[u16], k: usize, j: usize) -> End
    requires { (j < 3) × WireInside wires.now k }
    ensures { result ≡ end_at (get_or wires.now (4 * k + j) 0) (get_or wires.now (4 * k + (j + 1)) 0) }
{
    let comp = FlatIdx(word_of(wires, k, j) as usize);
    let port = word_of(wires, k, j + 1);
    End { comp, port }
}

// Wire k, whose words stand in the table. Crates net, rounds, judging, simulator, questions and lines call it.
pub fn wire_at(wires: &[u16], k: usize) -> Wire
    requires { WireInside wires.now k }
    ensures { result ≡ wire_in wires.now k }
{
    let src = end_at(wires, k, 0);
    let dst = end_at(wires, k, 2);
    Wire { src, dst }
}

// Lays the words of wire k. Crate laying calls it for the wires of an accepted drawing, for which a table of full size has room.
pub fn lay_wire(wires: &mut [u16], k: usize, wire: Wire)
    requires { (wire_place k + 4 ≤ length wires.old) × (wire.src.comp.0 < 65536) × (wire.dst.comp.0 < 65536) }
    ensures { wires.new ≡ sets wires.old (wire_place k) (wire_words wire) }
{
    let at = 4 * k;
    wires[at] = wire.src.comp.0 as u16;
    wires[at + 1] = wire.src.port;
    wires[at + 2] = wire.dst.comp.0 as u16;
    wires[at + 3] = wire.dst.port;
}
