// The questions: calm or not, satisfied or not, the index of an id, a port's value, a component's sources and targets. They change no table
// of a net.
// Rule: docs/SPECIFICATION.md, "Numbers given back". Source: flatten.rs, `id_to_idx`, `deps`, `inv_deps`; the others are added.
#![tactic(auto)]

ghost use Rattle.std.specs.Prelude.{◌≡◌, cond, [], ℕ, ◌+◌, ◌<◌, ◌≤◌, length, get_or, eqb};
ghost use Rattle.lists.specs.Lists.{from, first, overlay};
ghost use Rattle.kinds.specs.Given.{refusing};
ghost use Rattle.tables.specs.Words.{RowInside, RowsInside, WiresInside, no_counts, uncounted, id_in};
ghost use Rattle.net.specs.Parts.{lent};
ghost use Rattle.questions.specs.Questions.{AsksCalm, AsksSatisfied, index_gives, index_found, AsksIndex, port_count, value_at, value_gives};
ghost use Rattle.questions.specs.Questions.{value_on_net, AsksValue, list_number, Listing, AsksSources, AsksTargets};
ghost use Rattle.questions.specs.Asked.{comp_at, end_of, meets, met, marked_below, RowRight};

use judging::net_satisfied;
use kinds::{Id, Refusal, refused_by};
use net::check_net;
use rounds::net_calm;
use tables::{Counts, FlatIdx, Lent, Wire};
use value::Value;

// Which ports of a component.
#[derive(Clone, Copy)]
pub enum Side {
    Inputs,
    Outputs,
}

// Full size of a list: the most that can be listed.
const NAMES: usize = 256;

// The ends of a wire.
#[derive(Clone, Copy)]
pub enum Tip {
    Source,
    Target,
}

// The component at an end of a wire.
fn comp_at(wire: Wire, tip: Tip) -> usize
    ensures { result ≡ comp_at wire tip }
{
    match tip {
        Tip::Source => wire.src.comp.0,
        Tip::Target => wire.dst.comp.0,
    }
}

// The search by id, among the first `count` components: the sole way from an id to a flat index.
fn search_id(components: &[u64], count: usize, id: Id) -> Result<FlatIdx, Refusal>
    requires { RowsInside components.now count }
    ensures { index_gives result ≡ index_found (first (λ i. eqb (id_in components.now i) id.0) (from 0 count)) }
{
    for i in 0..count {
        if tables::has_id(components, i, id) {
            return Ok(FlatIdx(i));
        }
    }
    Err(refused_by(17))
}

// Marks the component at the far end of each wire that has component i at its near end.
fn mark_ends(wires: &[u16], count: usize, near: Tip, far: Tip, i: usize, marks: &mut [u8])
    requires { ((k : ℕ) → k < count → end_of wires.now k far < length marks.old) × WiresInside wires.now count }
    ensures { (j : ℕ) → get_or marks.new j 0 ≡ cond (meets wires.now count near far i j) 1 (get_or marks.old j 0) }
{
    for k in 0..count {
        let wire = tables::wire_at(wires, k);
        if comp_at(wire, near) == i {
            let at = comp_at(wire, far);
            marks[at] = 1;
        }
    }
}

// Lists the marked ones of the first `count` components, ascending. The answer is how many there are.
fn list_marked(marks: &[u8], count: usize, list: &mut [u16]) -> usize
    requires { (count ≤ 256) × (count ≤ length marks.now) × (count ≤ length list.old) }
    ensures { (result ≡ length (marked_below marks.now count)) ×
        (list.new ≡ overlay (marked_below marks.now count) list.old) }
{
    let mut listed: usize = 0;
    for (j, mark) in marks[..count].iter().enumerate() {
        if *mark == 1 {
            list[listed] = j as u16;
            listed += 1;
        }
    }
    listed
}

// Lists the components that wires join to component i, ascending and each once: those at the far ends of the wires that have it
// at their near end. One pass over the wires, and one over the components.
fn list_ends(
    wires: &[u16],
    counts: Counts,
    near: Tip,
    far: Tip,
    i: usize,
    list: &mut [u16],
) -> usize
    requires { (counts.components ≤ 256) × (256 ≤ length list.old)
        × ((k : ℕ) → k < counts.wires → end_of wires.now k far < 256) × WiresInside wires.now counts.wires }
    ensures { (result ≡ length (met wires.now counts.wires near far i counts.components))
        × (list.new ≡ overlay (met wires.now counts.wires near far i counts.components) list.old) }
{
    let mut marks = [0u8; 256];
    mark_ends(wires, counts.wires, near, far, i, &mut marks);
    list_marked(&marks, counts.components, list)
}

// How many ports component i has on a side.
fn port_count(components: &[u64], side: Side, i: usize) -> usize
    requires { RowInside components.now i }
    ensures { result ≡ port_count (uncounted components.now []) side i }
{
    match side {
        Side::Inputs => tables::input_count(components, i),
        Side::Outputs => tables::output_count(components, i),
    }
}

// The number of a port of a component whose ports start at `first` of their table.
fn port_number(ports: &[u64], first: usize, port: usize) -> u64
    requires { first + port < length ports.now }
    ensures { result ≡ get_or ports.now (first + port) 0 }
{
    ports[first + port]
}

// The value of a port of component i on a side. Crates questions and look call it for a component of a net and a port that it has.
pub fn value_at(
    components: &[u64],
    inputs: &[u64],
    outputs: &[u64],
    side: Side,
    i: usize,
    port: usize,
) -> Value
    requires { RowRight components.now inputs.now outputs.now i × (port < port_count (uncounted components.now []) side i) }
    ensures { result ≡ value_at (lent components.now inputs.now outputs.now [] no_counts) side i port }
{
    let fields = tables::fields_at(components, i);
    match side {
        Side::Inputs => Value {
            number: port_number(inputs, tables::first_input(components, i), port),
            width: kinds::input_width(fields),
        },
        Side::Outputs => Value {
            number: port_number(outputs, tables::first_output(components, i), port),
            width: kinds::output_width(fields),
        },
    }
}

// The value of a port of component i on a side: 17 where there is none.
fn value_in(
    components: &[u64],
    inputs: &[u64],
    outputs: &[u64],
    counts: Counts,
    side: Side,
    i: usize,
    port: usize,
) -> Result<Value, Refusal>
    requires { i < counts.components → RowRight components.now inputs.now outputs.now i }
    ensures { value_gives result ≡ value_on_net (lent components.now inputs.now outputs.now [] counts) side i port }
{
    if counts.components <= i {
        return Err(refused_by(17));
    }
    if port_count(components, side, i) <= port {
        return Err(refused_by(17));
    }
    Ok(value_at(components, inputs, outputs, side, i, port))
}

// What the questions for sources and targets check: 2, with the list that is lent for the answer; 16; 17.
fn check_list(lent: &Lent, i: usize, list: &[u16]) -> Result<(), Refusal>
    ensures { result ≡ refusing (list_number lent.now i list.now) }
{
    if list.len() < NAMES {
        return Err(refused_by(2));
    }
    check_net(lent)?;
    if lent.counts().components <= i {
        return Err(refused_by(17));
    }
    Ok(())
}

// Lists what wires join to component i, where nothing is refused.
fn list_joined(
    lent: &Lent,
    near: Tip,
    far: Tip,
    i: usize,
    list: &mut [u16],
) -> Result<usize, Refusal>
    ensures { Listing (list_number lent.now i list.old) (met lent.now.wires lent.now.counts.wires near far i lent.now.counts.components)
        list.old result list.new }
{
    check_list(lent, i, list)?;
    Ok(list_ends(lent.wires(), lent.counts(), near, far, i, list))
}

// Calm or not: whether all three lists name only Clocks.
pub fn is_calm(lent: &Lent) -> Result<bool, Refusal>
    ensures { AsksCalm lent.now result }
{
    check_net(lent)?;
    Ok(net_calm(
        lent.components(),
        lent.current(),
        lent.following(),
        lent.standing(),
        lent.counts(),
    ))
}

// Satisfied or not: whether the values are right at the components that the lists name and at the wires that leave them.
pub fn is_satisfied(lent: &Lent) -> Result<bool, Refusal>
    ensures { AsksSatisfied lent.now result }
{
    check_net(lent)?;
    Ok(net_satisfied(lent))
}

// The index of an id.
pub fn index_of(lent: &Lent, id: Id) -> Result<FlatIdx, Refusal>
    ensures { AsksIndex lent.now id.0 result }
{
    check_net(lent)?;
    search_id(lent.components(), lent.counts().components, id)
}

// The value of a port of a component on a side.
pub fn value_of(lent: &Lent, side: Side, index: FlatIdx, port: usize) -> Result<Value, Refusal>
    ensures { AsksValue lent.now side index.0 port result }
{
    check_net(lent)?;
    value_in(
        lent.components(),
        lent.inputs(),
        lent.outputs(),
        lent.counts(),
        side,
        index.0,
        port,
    )
}

// A component's sources, ascending and without repeats, into a list of full size. The answer is how many they are.
pub fn sources_of(lent: &Lent, index: FlatIdx, list: &mut [u16]) -> Result<usize, Refusal>
    ensures { AsksSources lent.now index.0 list.old result list.new }
{
    list_joined(lent, Tip::Target, Tip::Source, index.0, list)
}

// A component's targets, likewise.
pub fn targets_of(lent: &Lent, index: FlatIdx, list: &mut [u16]) -> Result<usize, Refusal>
    ensures { AsksTargets lent.now index.0 list.old result list.new }
{
    list_joined(lent, Tip::Source, Tip::Target, index.0, list)
}
