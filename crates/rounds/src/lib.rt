// A round of a net: each component of the current list evaluated, its wires sent, and the lists turned. Rule:
// docs/SPECIFICATION.md, "Rounds". Source: simulator.rs, one pass of the loop in `start`, as with `keep_running` true.
// Each step is the definition of the same name in specs/Round.antt.
#![tactic(auto)]

mod calm;
mod leaving;
mod links;
mod marks;

ghost use Rattle.std.specs.Prelude.{◌≡◌, ℕ, ◌≤◌, ◌<◌, length, get_or, take};
ghost use mathlib.Core.List.{List, [], foldl};
ghost use Rattle.lists.specs.Lists.{overlay};
ghost use Rattle.tables.specs.declared.Wire.{Wire};
ghost use Rattle.tables.specs.Tables.{tables_of, current_list};
ghost use Rattle.tables.specs.Words.{uncounted};
ghost use Rattle.net.specs.Net.{net_number};
ghost use Rattle.rounds.specs.Round.{state_of, wires_from, turn, leave, send, evaluated, visit, moved_at, moved_by, round};
ghost use Rattle.rounds.specs.Steps.{bare, state_at, CanEvaluate, CanSend, ListFits, Step};
ghost use Rattle.rounds.specs.Links.{Follows, HasLinks, IsListed, ListMarked, ListCovered};

use crate::marks::append_marked;
pub use calm::net_calm;
use kinds::Kind;
pub use leaving::{Linked, Wiring};
pub use links::{NO_WIRE, is_order, link_by, link_once};
pub use marks::mark;
use tables::{Counts, Wire};

// How many entries of the following and the standing list are in use.
#[derive(Clone, Copy)]
pub struct Sizes {
    pub following: usize,
    pub standing: usize,
}

// What an evaluation comes to: the standing list's new count, and which outputs changed, bit i for output i.
#[derive(Clone, Copy)]
pub struct Outcome {
    pub standing: usize,
    pub moved: u64,
}

// What a visit comes to: the new counts of the two lists, and which outputs changed.
#[derive(Clone, Copy)]
pub struct Visited {
    pub sizes: Sizes,
    pub moved: u64,
}

// One wire: if output and input differ, writes the input and appends the target to the following list unless there. The answer is
// the list's new count. Crates rounds and slow call it for a wire of a net.
pub fn send_along(
    components: &[u64],
    inputs: &mut [u64],
    outputs: &[u64],
    following: &mut [u16],
    listed: &mut [u8; 256],
    count: usize,
    wire: Wire,
) -> usize
    requires { CanSend (uncounted components.now []) inputs.old outputs.now count following.old wire
        × IsListed listed.old (take count following.old) }
    ensures { Step result following.new (state_at inputs.new outputs.now (take result following.new) [])
        (send (uncounted components.now []) (state_at inputs.old outputs.now
        (take count following.old) []) wire)
        × IsListed listed.new (take result following.new) }
{
    let to = wire.dst.comp.0;
    let source = tables::first_output(components, wire.src.comp.0) + wire.src.port as usize;
    let target = tables::first_input(components, to) + wire.dst.port as usize;
    let number = tables::word(outputs, source);
    if number == tables::word(inputs, target) {
        return count;
    }
    inputs[target] = number;
    append_marked(following, listed, count, to)
}

// Evaluates component i in the tables of ports and, unless it is a Clock, strikes it from the standing list. What the list named at
// the round's start is marked in `stood`: any other component is not there to be struck. Crate rounds calls it for a component of a net;
// public for a crate that makes rounds of its own.
pub fn evaluate_at(
    components: &[u64],
    inputs: &[u64],
    outputs: &mut [u64],
    standing: &mut [u16],
    stood: &[u8; 256],
    count: usize,
    i: usize,
    time: u64,
) -> Outcome
    requires { ListCovered count standing.old stood.now × CanEvaluate (uncounted components.now []) inputs.now outputs.old i }
    ensures { let before = state_at inputs.now outputs.old [] (take count standing.old) in
        Step result.standing standing.new (state_at inputs.now outputs.new [] (take result.standing standing.new))
        (evaluated (uncounted components.now []) time i before)
        × ListCovered result.standing standing.new stood.now
        × (result.moved ≡ moved_at (uncounted components.now []) time before i) }
{
    let f = tables::fields_at(components, i);
    let input = tables::first_input(components, i);
    let output = tables::first_output(components, i);
    let input_end = input + f.inputs as usize;
    let output_end = output + f.outputs as usize;
    let moved = primitive::update(
        f,
        &inputs[input..input_end],
        &mut outputs[output..output_end],
        time,
    );
    if stood[i] == 0 {
        return Outcome {
            standing: count,
            moved,
        };
    }
    if tables::is_kind(components, i, Kind::Clock) {
        return Outcome {
            standing: count,
            moved,
        };
    }
    Outcome {
        standing: tables::strike(standing, count, i as u16),
        moved,
    }
}

// One component of the current list: evaluated, then each of its wires.
fn visit<W: Wiring>(
    wiring: &W,
    components: &[u64],
    inputs: &mut [u64],
    outputs: &mut [u64],
    following: &mut [u16],
    listed: &mut [u8; 256],
    standing: &mut [u16],
    stood: &[u8; 256],
    sizes: Sizes,
    i: usize,
    time: u64,
) -> Visited
    requires { CanEvaluate (uncounted components.now []) inputs.old outputs.old i
        × W.CanLeave wiring.now components.now inputs.old outputs.old i
        × ListMarked (bare components.now) sizes.following following.old listed.old
        × ListCovered sizes.standing standing.old stood.now }
    ensures { let before = state_at inputs.old outputs.old (take sizes.following following.old)
        (take sizes.standing standing.old) in
        (state_at inputs.new outputs.new (take result.sizes.following following.new)
        (take result.sizes.standing standing.new)
        ≡ visit (bare components.now) (W.leaving wiring.now) time before i)
        × ListMarked (bare components.now) result.sizes.following following.new listed.new
        × ListCovered result.sizes.standing standing.new stood.now
        × (result.moved ≡ moved_at (bare components.now) time before i) }
{
    let evaluation = evaluate_at(
        components,
        inputs,
        outputs,
        standing,
        stood,
        sizes.standing,
        i,
        time,
    );
    let filled = wiring.send_leaving(
        components,
        inputs,
        outputs,
        following,
        listed,
        sizes.following,
        i,
    );
    Visited {
        sizes: Sizes {
            following: filled,
            standing: evaluation.standing,
        },
        moved: evaluation.moved,
    }
}

// Every component of a list of `count` entries, in its order. Entry k of `moved` is written with which outputs of component k of the list
// changed; entries past the list are kept.
fn visit_all<W: Wiring>(
    wiring: &W,
    components: &[u64],
    list: &[u16],
    count: usize,
    inputs: &mut [u64],
    outputs: &mut [u64],
    following: &mut [u16],
    listed: &mut [u8; 256],
    standing: &mut [u16],
    stood: &[u8; 256],
    moved: &mut [u64],
    sizes: Sizes,
    time: u64,
) -> Sizes
    requires { ListFits (bare components.now) count list.now
        × ((j : ℕ) → j < count → CanEvaluate (uncounted components.now []) inputs.old outputs.old (get_or list.now j 0)
        × W.CanLeave wiring.now components.now inputs.old outputs.old (get_or list.now j 0))
        × ListMarked (bare components.now) sizes.following following.old listed.old
        × ListCovered sizes.standing standing.old stood.now × (256 ≤ length moved.old) }
    ensures { let before = state_at inputs.old outputs.old (take sizes.following following.old)
        (take sizes.standing standing.old) in
        (state_at inputs.new outputs.new (take result.following following.new) (take result.standing standing.new)
        ≡ foldl (visit (bare components.now) (W.leaving wiring.now) time) before (take count list.now))
        × (moved.new
        ≡ overlay (moved_by (bare components.now) (W.leaving wiring.now) time before (take count list.now)) moved.old)
        × (result.following ≤ length following.new) × (result.standing ≤ length standing.new) }
{
    let mut reached = sizes;
    for (k, entry) in list[..count].iter().enumerate() {
        let i = *entry as usize;
        let visited = visit(
            wiring, components, inputs, outputs, following, listed, standing, stood, reached, i,
            time,
        );
        reached = visited.sizes;
        moved[k] = visited.moved;
    }
    reached
}

// The end of a round: current becomes following, and following becomes a copy of standing. `next` and `left` are the following and
// the standing list that the round has made; entries past their counts stay what they were in the lent tables. Crate rounds calls it where
// all tables have room; public for a crate that makes rounds of its own.
pub fn end_round(
    next: &[u16],
    left: &[u16],
    current: &mut [u16],
    following: &mut [u16],
    standing: &mut [u16],
    counts: Counts,
    sizes: Sizes,
) -> Counts
    requires { (sizes.following ≤ length next.now) × (sizes.standing ≤ length left.now) × (sizes.following ≤ length current.old)
        × (sizes.standing ≤ length following.old) × (sizes.standing ≤ length standing.old) }
    ensures { tables_of [] [] [] [] current.new following.new standing.new result
        ≡ leave (tables_of [] [] [] [] current.old following.old standing.old counts)
        (turn (state_at [] [] (take sizes.following next.now) (take sizes.standing left.now))) }
{
    tables::copy(next, sizes.following, current);
    tables::copy(left, sizes.standing, following);
    tables::copy(left, sizes.standing, standing);
    Counts {
        components: counts.components,
        inputs: counts.inputs,
        outputs: counts.outputs,
        wires: counts.wires,
        current: sizes.following,
        following: sizes.standing,
        standing: sizes.standing,
    }
}

// A round: both lists that it makes are copied out, every component of the current list is visited, and the lists turn. The answer is the new
// counts; which outputs changed of component k of the current list is written to entry k of `moved`. How the wires are found is handed in. Crates
// rounds and slow call it where every component that is listed can be evaluated and its wires sent along.
pub fn round_over<W: Wiring>(
    wiring: &W,
    components: &[u64],
    inputs: &mut [u64],
    outputs: &mut [u64],
    current: &mut [u16],
    following: &mut [u16],
    standing: &mut [u16],
    moved: &mut [u64],
    counts: Counts,
    time: u64,
) -> Counts
    requires { ListFits (bare components.now) counts.current current.old
        × ListFits (bare components.now) counts.following following.old
        × ListFits (bare components.now) counts.standing standing.old × (256 ≤ length moved.old)
        × ((j : ℕ) → j < counts.current → CanEvaluate (uncounted components.now []) inputs.old outputs.old (get_or current.old j 0)
        × W.CanLeave wiring.now components.now inputs.old outputs.old (get_or current.old j 0)) }
    ensures { (wires : List ℕ) → let before = tables_of components.now inputs.old outputs.old wires current.old
        following.old standing.old counts in
        (tables_of components.now inputs.new outputs.new wires current.new following.new standing.new result
        ≡ leave before (round before (W.leaving wiring.now) time (state_of before)))
        × (moved.new ≡ overlay (moved_by before (W.leaving wiring.now) time (state_of before) (current_list before)) moved.old) }
{
    let mut next = [0u16; 256];
    let mut left = [0u16; 256];
    tables::copy(following, counts.following, &mut next);
    tables::copy(standing, counts.standing, &mut left);
    let mut listed = [0u8; 256];
    let mut stood = [0u8; 256];
    mark(following, counts.following, &mut listed);
    mark(standing, counts.standing, &mut stood);
    let sizes = Sizes {
        following: counts.following,
        standing: counts.standing,
    };
    let reached = visit_all(
        wiring,
        components,
        current,
        counts.current,
        inputs,
        outputs,
        &mut next,
        &mut listed,
        &mut left,
        &stood,
        moved,
        sizes,
        time,
    );
    end_round(&next, &left, current, following, standing, counts, reached)
}

// A round of a net, which takes the wires in the order in which they are linked. The answer is the new counts; which outputs changed of
// component k of the current list is written to entry k of `moved`. Crate simulator calls it where no check refuses the tables; where the
// current list is empty no link is looked at.
pub fn net_round(
    components: &[u64],
    inputs: &mut [u64],
    outputs: &mut [u64],
    wires: &[u16],
    head: &[u16; 256],
    after: &[u16; 1024],
    current: &mut [u16],
    following: &mut [u16],
    standing: &mut [u16],
    moved: &mut [u64],
    counts: Counts,
    time: u64,
) -> Counts
    requires { (net_number (tables_of components.now inputs.old outputs.old wires.now current.old following.old standing.old counts) ≡ 0)
        × (256 ≤ length moved.old) × (0 < counts.current → HasLinks wires.now counts.wires head.now after.now) }
    ensures { let before = tables_of components.now inputs.old outputs.old wires.now current.old
        following.old standing.old counts in
        ((vs : List Wire) → (0 < counts.current → Follows wires.now counts.wires head.now after.now vs)
        → (tables_of components.now inputs.new outputs.new wires.now current.new
        following.new standing.new result ≡ leave before (round before (wires_from vs) time (state_of before)))
        × (moved.new ≡ overlay (moved_by before (wires_from vs) time (state_of before) (current_list before)) moved.old)) }
{
    let wiring = Linked {
        wires,
        head,
        after,
        counts,
    };
    round_over(
        &wiring, components, inputs, outputs, current, following, standing, moved, counts, time,
    )
}
