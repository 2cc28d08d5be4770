// What is behind the ports of a component. Rule: docs/SPECIFICATION.md, "Looking at a box". All functions are handed an accepted drawing with
// its index filled.
ghost use Rattle.std.specs.Prelude.{◌≡◌, false, ◌+◌, ◌<◌, length, eqb};
ghost use Rattle.component.specs.Record.{record_at, record_count, inputs_of};
ghost use Rattle.index.specs.Index.{IsIndex};
ghost use Rattle.flatten.specs.Descent.{pin};
ghost use Rattle.flatten.specs.Verdict.{verdict};
ghost use Rattle.boxes.specs.Boxes.{last_of, behind, dangling, ports_on, port_shown};

use component::{deepest, fields_at};
use flatten::{Pin, list_targets, source_of, target_at};
use questions::Side;

// Whether nothing is behind input i of component c.
fn is_open(file: &[u8], index: &[u16], c: usize, i: u16) -> bool
    requires { (verdict file.now ≡ Ok tt) × IsIndex file.now index.now × (i < inputs_of (record_at file.now c)) }
    ensures { result ≡ eqb (length (behind (record_at file.now) (record_count file.now) c i)) 0 }
{
    let mut targets = [0u16; 2048];
    list_targets(file, index, deepest(), c, i, &mut targets, 0) == 0
}

// Whether nothing is behind some input of component c. Crate look calls it for an accepted file, with the index filled.
pub fn is_dangling(file: &[u8], index: &[u16], c: usize) -> bool
    requires { (verdict file.now ≡ Ok tt) × IsIndex file.now index.now }
    ensures { result ≡ dangling (record_at file.now) (record_count file.now) c }
{
    let count = fields_at(file, c).inputs;
    (0..count).any(|i| is_open(file, index, c, i))
}

// The primitive input that the maps of input i of component c reach last; input 0 of component n, the number of records, where they reach none.
fn last_behind(file: &[u8], index: &[u16], c: usize, i: u16) -> Pin
    requires { (verdict file.now ≡ Ok tt) × IsIndex file.now index.now × (i < inputs_of (record_at file.now c)) }
    ensures { result ≡ last_of (pin (record_count file.now) 0) (behind (record_at file.now) (record_count file.now) c i) }
{
    let mut targets = [0u16; 2048];
    let count = list_targets(file, index, deepest(), c, i, &mut targets, 0);
    if count == 0 {
        return Pin {
            comp: file.len() / 24,
            port: 0,
        };
    }
    target_at(&targets, count - 1)
}

// The primitive's port that port i of component c shows on a side. Crate look calls it likewise, for a port that the component has.
pub fn port_shown(file: &[u8], index: &[u16], side: Side, c: usize, i: u16) -> Pin
    requires { (verdict file.now ≡ Ok tt) × IsIndex file.now index.now × (i < ports_on side (record_at file.now c)) }
    ensures { result ≡ port_shown (record_at file.now) (record_count file.now) side c i }
{
    match side {
        Side::Inputs => last_behind(file, index, c, i),
        Side::Outputs => source_of(file, index, deepest(), c, i),
    }
}
