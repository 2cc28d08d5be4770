// Rounds, one after the other, until calm: the same of any engine that makes them. Rule: docs/SPECIFICATION.md, "Rounds" and "The slow engine".
// Source: simulator.rs, the loop in `start`.
ghost use Rattle.std.specs.Prelude.{◌≡◌, ℕ, ◌≤◌, List, length};
ghost use Rattle.lists.specs.Lists.{overlay};
ghost use Rattle.tables.specs.Tables.{Tables, tables_of, current_list};
ghost use Rattle.net.specs.Net.{net_number};
ghost use Rattle.rounds.specs.Round.{round_bits};
ghost use Rattle.rounds.specs.Steps.{ListInside};
ghost use Rattle.rounds.specs.Links.{Ready};
ghost use Rattle.simulator.specs.Calls.{round_tables, run_by};

use crate::Ran;
use crate::moved::count_moved;
use rounds::{link_once, net_calm, net_round};
use tables::Counts;

// Full size of a table of bits: a word for each component that a round can evaluate.
pub(crate) const WORDS: usize = 256;

// What makes rounds. Crate simulator has an engine over tables of wires, and crate slow one straight from the drawing.
pub trait Engine {
    // What it keeps from round to round beside the tables.
    type Kept;

    // The wires in its tables.
    ghost wires: { Self → List ℕ };

    // A round can be made of these tables.
    ghost CanRound: { Self → Self.Kept → Tables → Type 0 };

    // The tables after a round at a time, and the bits that it passes on.
    ghost round_at: { Self → ℕ → Tables → Tables };

    ghost bits_at: { Self → ℕ → Tables → List ℕ };

    // A round at a time. The answer is the new counts; which outputs changed of component k of the current list is written to entry k of
    // `moved`.
    fn round(
        &self,
        kept: &mut Self::Kept,
        components: &[u64],
        inputs: &mut [u64],
        outputs: &mut [u64],
        current: &mut [u16],
        following: &mut [u16],
        standing: &mut [u16],
        moved: &mut [u64],
        counts: Counts,
        time: u64,
    ) -> Counts
        requires { CanRound self.now kept.old (tables_of components.now inputs.old outputs.old (wires self.now) current.old
            following.old standing.old counts) × (256 ≤ length moved.old) }
        ensures { let before = tables_of components.now inputs.old outputs.old (wires self.now) current.old following.old
            standing.old counts in
            let after = tables_of components.now inputs.new outputs.new (wires self.now) current.new following.new
            standing.new result in
            (after ≡ round_at self.now time before) × (moved.new ≡ overlay (bits_at self.now time before) moved.old)
            × CanRound self.now kept.new after
            × (length (current_list before) ≡ counts.current) × (length (bits_at self.now time before) ≡ counts.current)
            × (counts.current ≤ 256)
            × (ListInside components.now result.current current.new × ListInside components.now result.following following.new
            × ListInside components.now result.standing standing.new) };
}

// Rounds, one after the other, at most `limit` of them, until the first that leaves calm. Crates simulator and slow call it where a round can
// be made.
pub fn run_over<E: Engine>(
    engine: &E,
    kept: &mut E::Kept,
    components: &[u64],
    inputs: &mut [u64],
    outputs: &mut [u64],
    current: &mut [u16],
    following: &mut [u16],
    standing: &mut [u16],
    counts: Counts,
    time: u64,
    limit: u16,
) -> Ran<Counts>
    requires { E.CanRound engine.now kept.old (tables_of components.now inputs.old outputs.old (E.wires engine.now) current.old
        following.old standing.old counts) }
    ensures { record {
      tables = tables_of components.now inputs.new outputs.new (E.wires engine.now)
          current.new following.new standing.new result.counts;
      rounds = result.rounds;
      evaluations = result.evaluations;
      moved = result.moved;
    }
        ≡ run_by (E.round_at engine.now time) (E.bits_at engine.now time) limit
        (tables_of components.now inputs.old outputs.old (E.wires engine.now) current.old following.old standing.old counts) }
{
    let mut reached = counts;
    let mut rounds: u16 = 0;
    let mut evaluations: u32 = 0;
    let mut moved: u32 = 0;
    let mut bits = [0u64; WORDS];
    let mut calm = false;
    while !calm & (rounds < limit) {
        let evaluated = reached.current;
        reached = engine.round(
            kept, components, inputs, outputs, current, following, standing, &mut bits, reached,
            time,
        );
        evaluations += evaluated as u32;
        moved += count_moved(&bits, evaluated);
        rounds += 1;
        calm = net_calm(components, current, following, standing, reached);
    }
    Ran {
        counts: reached,
        rounds,
        evaluations,
        moved,
    }
}

// A net's wires in their table.
#[derive(Clone, Copy)]
pub(crate) struct Stored<'a> {
    pub(crate) wires: &'a [u16],
}

// Links from each component to its wires, once they are made.
#[derive(Clone, Copy)]
pub(crate) struct Links {
    pub(crate) head: [u16; 256],
    pub(crate) after: [u16; 1024],
    pub(crate) linked: bool,
}

impl<'a> Engine for Stored<'a> {
    type Kept = Links;

    ghost wires = { λ e. e.wires.now };

    ghost CanRound = { λ e k T. (net_number T ≡ 0) × Ready k.linked e.wires.now T.counts.wires k.head k.after };

    ghost round_at = { λ e t T. round_tables T t };

    ghost bits_at = { λ e t T. round_bits t T };

    // The wires are taken in stored order. They are linked once, before the first round that visits a component.
    fn round(
        &self,
        kept: &mut Links,
        components: &[u64],
        inputs: &mut [u64],
        outputs: &mut [u64],
        current: &mut [u16],
        following: &mut [u16],
        standing: &mut [u16],
        moved: &mut [u64],
        counts: Counts,
        time: u64,
    ) -> Counts {
        kept.linked = link_once(
            self.wires,
            counts.wires,
            counts.current,
            kept.linked,
            &mut kept.head,
            &mut kept.after,
        );
        net_round(
            components,
            inputs,
            outputs,
            self.wires,
            &kept.head,
            &kept.after,
            current,
            following,
            standing,
            moved,
            counts,
            time,
        )
    }
}
