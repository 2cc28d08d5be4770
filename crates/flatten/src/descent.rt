// From a connection's ends down to primitives. Rule: docs/SPECIFICATION.md, "Flattening".
// Source: flatten.rs, `reindex_connections`.
ghost use Rattle.std.specs.Prelude.{◌≡◌, ◌+◌, ◌≤◌, length};
ghost use Rattle.component.specs.Record.{record_at, record_count};
ghost use Rattle.component.specs.Drawing.{deepest};
ghost use Rattle.index.specs.Index.{IsIndex};
ghost use Rattle.flatten.specs.Descent.{output_below, inputs_below};
ghost use Rattle.flatten.specs.Searches.{entered};
ghost use Rattle.flatten.specs.Targets.{target_place, Listed};

use crate::Pin;
use crate::targets::lay_target;
use component::{Reading, Says, deepest, is_primitive_at, known_at};
use index::{child_of, out_map_of, stretch_of};

// Output i of component c, down through output maps to a primitive's output, with the depth left. Crates flatten and boxes call it,
// with the index filled.
pub fn source_of(file: &[u8], index: &[u16], depth: u8, c: usize, i: u16) -> Pin
    requires { IsIndex file.now index.now }
    ensures { result ≡ output_below (record_at file.now) (record_count file.now) depth c i }
{
    let n = file.len() / 24;
    if depth == 0 {
        return Pin { comp: n, port: 0 };
    }
    if is_primitive_at(file, c) {
        return Pin { comp: c, port: i };
    }
    let Reading::Taken { says, .. } = known_at(file, out_map_of(file, index, c, i)) else {
        return Pin { comp: n, port: 0 };
    };
    let Says::OutputMap { from, output } = says else {
        return Pin { comp: n, port: 0 };
    };
    let inner = child_of(file, index, c, from);
    source_of(file, index, depth - 1, inner, output)
}

// Where the record at q leads, if it maps input i of composite c: an input of a child.
fn enter(file: &[u8], index: &[u16], c: usize, i: u16, q: usize) -> Option<Pin>
    requires { IsIndex file.now index.now }
    ensures { result ≡ entered (record_at file.now) (record_count file.now) c i q }
{
    let Reading::Taken { owner, says } = known_at(file, q) else {
        return None;
    };
    let Says::InputMap { port, to, input } = says else {
        return None;
    };
    if owner as usize != c {
        return None;
    }
    if port != i {
        return None;
    }
    Some(Pin {
        comp: child_of(file, index, c, to),
        port: input,
    })
}

// Lists the primitive inputs that input i of component c leads to, through input maps and with the depth left: in map order, all that one
// map reaches before the next, from entry `at` of the table on. The answer is the number of the next entry. Crates flatten and boxes call it,
// with the index filled and room in the table.
pub fn list_targets(
    file: &[u8],
    index: &[u16],
    depth: u8,
    c: usize,
    i: u16,
    targets: &mut [u16],
    at: usize,
) -> usize
    requires index { IsIndex file.now index.now × (record_count file.now ≤ 1024) }
    requires i_in_bounds { target_place (at + length (inputs_below (record_at file.now) (record_count file.now) depth c i)) ≤ length targets.old }
    ensures { Listed targets.old at (inputs_below (record_at file.now) (record_count file.now) depth c i)
        targets.new result }
{
    if depth == 0 {
        return at;
    }
    if is_primitive_at(file, c) {
        lay_target(targets, at, Pin { comp: c, port: i });
        return at + 1;
    }
    let maps = stretch_of(index, file.len() / 24, c);
    let mut next = at;
    for q in maps.first..maps.end {
        if let Some(Pin { comp, port }) = enter(file, index, c, i, q) {
            next = list_targets(file, index, depth - 1, comp, port, targets, next);
        }
    }
    next
}

// Output i of component c, down to a primitive's output, from the greatest depth: a primitive's own output needs no descent. Crates flatten,
// laying and slow call it, with the index filled.
pub fn source_from(file: &[u8], index: &[u16], c: usize, i: u16) -> Pin
    requires { IsIndex file.now index.now }
    ensures { result ≡ output_below (record_at file.now) (record_count file.now) deepest c i }
{
    if is_primitive_at(file, c) {
        return Pin { comp: c, port: i };
    }
    source_of(file, index, deepest(), c, i)
}

// Lists the primitive inputs that input i of component c leads to, from the greatest depth and from the table's first entry on: a primitive's own input
// needs no descent. The answer is how many they are. Crates flatten, laying and slow call it, with the index filled and room in the
// table.
pub fn targets_from(file: &[u8], index: &[u16], c: usize, i: u16, targets: &mut [u16]) -> usize
    requires { IsIndex file.now index.now
        × (target_place (length (inputs_below (record_at file.now) (record_count file.now) deepest c i)) ≤ length targets.old) }
    ensures { Listed targets.old 0 (inputs_below (record_at file.now) (record_count file.now) deepest c i)
        targets.new result }
{
    if is_primitive_at(file, c) {
        lay_target(targets, 0, Pin { comp: c, port: i });
        return 1;
    }
    list_targets(file, index, deepest(), c, i, targets, 0)
}
