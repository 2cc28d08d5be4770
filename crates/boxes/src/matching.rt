// Whether file and tables match. Rule: docs/SPECIFICATION.md, "Looking at a box".
ghost use Rattle.std.specs.Prelude.{◌≡◌, ◌≤◌, ◌*◌, [], length, take};
ghost use Rattle.lists.specs.Lists.{joined};
ghost use Rattle.component.specs.Record.{record_at, record_count};
ghost use Rattle.index.specs.Index.{IsIndex};
ghost use Rattle.flatten.specs.Verdict.{verdict};
ghost use Rattle.tables.specs.Tables.{wire_words};
ghost use Rattle.laying.specs.Laid.{primitives, primitive_words, flat_wires};
ghost use Rattle.boxes.specs.Boxes.{same, matched};

use laying::{lay_components, lay_wires};
use tables::Lent;

// Whether the first `count` components of a table are those that a load of the file gives.
fn components_match(file: &[u8], components: &[u64], count: usize) -> bool
    requires { (verdict file.now ≡ Ok tt) × (8 * count ≤ length components.now) }
    ensures { result ≡ same (take (8 * count) components.now)
        (joined (primitive_words (record_at file.now) (record_count file.now))
        (primitives (record_at file.now) (record_count file.now))) }
{
    let mut laid = [0u64; 2048];
    let all = lay_components(file, &mut laid);
    if all.components != count {
        return false;
    }
    components[..8 * count] == laid[..8 * count]
}

// Whether the first `count` wires of a table are those that a load of the file gives.
fn wires_match(file: &[u8], index: &[u16], wires: &[u16], count: usize) -> bool
    requires { (verdict file.now ≡ Ok tt) × IsIndex file.now index.now × (4 * count ≤ length wires.now) }
    ensures { result ≡ same (take (4 * count) wires.now)
        (joined wire_words (flat_wires (record_at file.now) (record_count file.now))) }
{
    let mut laid = [0u16; 4096];
    if lay_wires(file, index, &mut laid) != count {
        return false;
    }
    wires[..4 * count] == laid[..4 * count]
}

// Whether the tables hold the components and the wires that a load of the file gives. Crate look calls it for an accepted file, with the index
// filled, and tables that are a net.
pub fn is_matched(file: &[u8], index: &[u16], lent: &Lent) -> bool
    requires { (verdict file.now ≡ Ok tt) × IsIndex file.now index.now × (8 * lent.now.counts.components ≤ length lent.now.components)
        × (4 * lent.now.counts.wires ≤ length lent.now.wires) }
    ensures { result ≡ matched (record_at file.now) (record_count file.now) lent.now }
{
    let counts = lent.counts();
    if !components_match(file, lent.components(), counts.components) {
        return false;
    }
    wires_match(file, index, lent.wires(), counts.wires)
}
