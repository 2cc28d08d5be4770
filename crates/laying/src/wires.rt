// The wires: from the source of each connection to every primitive input that it leads to. Rule: docs/SPECIFICATION.md, "Flattening".
// Source: flatten.rs, `reindex_connections`. All functions are handed an accepted drawing and its index.
ghost use Rattle.std.specs.Prelude.{◌≡◌, ℕ, ◌+◌, ◌≤◌, ◌<◌, length};
ghost use Rattle.std.proofs.lemmas.List.Edits.{sets};
ghost use Rattle.lists.specs.Lists.{joined, overlay};
ghost use Rattle.component.specs.Record.{record_at, record_count};
ghost use Rattle.index.specs.Index.{IsIndex};
ghost use Rattle.flatten.specs.Verdict.{verdict};
ghost use Rattle.flatten.specs.Targets.{target_place, target_in, targets_in};
ghost use Rattle.laying.specs.Laid.{flat_wires};
ghost use Rattle.laying.specs.Laying.{Written, Ready, end_by, lead_by, wires_given};
ghost use Rattle.tables.specs.Tables.{wire_words};
ghost use Rattle.tables.specs.Words.{wire_place};

use crate::names::index_flat;
use component::{Reading, Says, known_at};
use flatten::{Pin, source_from, target_at, targets_from};
use index::child_of;
use tables::{End, FlatIdx, Wire};

// A port of a component of the drawing as the net has it. Crates laying, look and slow call it, with the flat indexes filled.
pub fn flat_pin(indexes: &[u16], pin: Pin) -> End
    requires { (length indexes.now ≡ 256) × (pin.comp < 256) }
    ensures { (result ≡ end_by indexes.now pin) × (result.comp.0 < 65536) }
{
    let comp = pin.comp;
    End {
        comp: FlatIdx(indexes[comp] as usize),
        port: pin.port,
    }
}

// Lays wire k from an output to a target.
fn lay_lead(indexes: &[u16], from: End, target: Pin, wires: &mut [u16], k: usize)
    requires { (length indexes.now ≡ 256) × (target.comp < 256) × (from.comp.0 < 65536) × (wire_place (k + 1) ≤ length wires.old) }
    ensures { wires.new ≡ sets wires.old (wire_place k) (lead_by indexes.now from target) }
{
    let to = flat_pin(indexes, target);
    tables::lay_wire(wires, k, Wire { src: from, dst: to });
}

// Lays a wire from an output to each of the first `count` targets of a table, in their order, from wire `at` on. The answer is the number
// of the next wire.
fn lay_leads(
    indexes: &[u16],
    from: End,
    targets: &[u16],
    count: usize,
    wires: &mut [u16],
    at: usize,
) -> usize
    requires indexes_len { (length indexes.now ≡ 256) × (from.comp.0 < 65536) × (wire_place (at + count) ≤ length wires.old) }
    requires count_in_bounds { (target_place count ≤ length targets.now) × ((k : ℕ) → k < count → (target_in targets.now k).comp < 256) }
    ensures { Written wires.old (wire_place at)
        (joined (lead_by indexes.now from) (targets_in targets.now count)) wires.new (wire_place result) }
{
    for k in 0..count {
        lay_lead(indexes, from, target_at(targets, k), wires, at + k);
    }
    at + count
}

// Writes the wires of the record at p, if it is a connection; its targets are listed in the table. The answer is the number of the next.
fn connect(
    file: &[u8],
    index: &[u16],
    indexes: &[u16],
    targets: &mut [u16],
    p: usize,
    wires: &mut [u16],
    at: usize,
) -> usize
    requires ready { Ready file.now index.now indexes.now × (length targets.old ≡ 2048) }
    requires p_bound { (p < record_count file.now) × (wire_place at + length (wires_given (record_at file.now) (record_count file.now) p) ≤ length wires.old) }
    ensures written { Written wires.old (wire_place at) (wires_given (record_at file.now) (record_count file.now) p)
        wires.new (wire_place result) }
    ensures targets_len { length targets.new ≡ 2048 }
{
    let Reading::Taken { owner, says } = known_at(file, p) else {
        return at;
    };
    let Says::Connection {
        from,
        output,
        to,
        input,
    } = says
    else {
        return at;
    };
    let start = child_of(file, index, owner as usize, from);
    let source = source_from(file, index, start, output);
    let flat = flat_pin(indexes, source);
    let goal = child_of(file, index, owner as usize, to);
    let count = targets_from(file, index, goal, input, targets);
    lay_leads(indexes, flat, targets, count, wires, at)
}

// Writes the wires of all connections, in their order. The answer is how many there are.
fn connect_all(file: &[u8], index: &[u16], indexes: &[u16], wires: &mut [u16]) -> usize
    requires ready { Ready file.now index.now indexes.now }
    requires in_bounds { 4096 ≤ length wires.old }
    ensures { (wires.new ≡ overlay (joined wire_words (flat_wires (record_at file.now) (record_count file.now)))
        wires.old)
        × (result ≡ length (flat_wires (record_at file.now) (record_count file.now))) }
{
    let mut targets = [0u16; 2048];
    let mut at: usize = 0;
    for p in 0..file.len() / 24 {
        at = connect(file, index, indexes, &mut targets, p, wires, at);
    }
    at
}

// Lays the wires of an accepted drawing, with its index filled. The answer is how many there are. Crates load and boxes call it with a table of full size.
pub fn lay_wires(file: &[u8], index: &[u16], wires: &mut [u16]) -> usize
    requires { (verdict file.now ≡ Ok tt) × IsIndex file.now index.now × (4096 ≤ length wires.old) }
    ensures wires_after { wires.new ≡ overlay (joined wire_words (flat_wires (record_at file.now) (record_count file.now)))
        wires.old }
    ensures value { result ≡ length (flat_wires (record_at file.now) (record_count file.now)) }
{
    let mut indexes = [0u16; 256];
    index_flat(file, &mut indexes);
    connect_all(file, index, &indexes, wires)
}
