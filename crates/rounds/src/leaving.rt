// How the wires that leave a component are found and sent along: a round is the same whichever way it is done.
ghost use Rattle.std.specs.Prelude.{◌≡◌, ℕ, ◌<◌, length, take};
ghost use mathlib.Core.List.{List, [], foldl};
ghost use Rattle.tables.specs.declared.Wire.{Wire};
ghost use Rattle.rounds.specs.Round.{send};
ghost use Rattle.rounds.specs.Steps.{wiring, bare, state_at, CanRun, runs_kept};
ghost use Rattle.rounds.specs.Links.{linked_wires, HasLinks, ListMarked};

use crate::send_along;
use tables::Counts;

// A way to find the wires of each component. Crate rounds has one over links, and crate slow one straight from the drawing.
pub trait Wiring {
    // The wires that leave component i, in the order in which they are taken.
    ghost leaving: { Self → ℕ → List Wire };

    // With these components, inputs and outputs, all wires that leave component i can be sent along.
    ghost CanLeave: { Self → List ℕ → List ℕ → List ℕ → ℕ → Type 0 };

    // Sends along all wires that leave component i. The answer is the following list's new count.
    fn send_leaving(
        &self,
        components: &[u64],
        inputs: &mut [u64],
        outputs: &[u64],
        following: &mut [u16],
        listed: &mut [u8; 256],
        count: usize,
        i: usize,
    ) -> usize
        requires { CanLeave self.now components.now inputs.old outputs.now i
            × ListMarked (bare components.now) count following.old listed.old }
        ensures { (state_at inputs.new outputs.now (take result following.new) []
            ≡ foldl (send (bare components.now)) (state_at inputs.old outputs.now (take count following.old) [])
            (leaving self.now i))
            × ListMarked (bare components.now) result following.new listed.new };

    // That they can depends on the tables of ports by their lengths only.
    ghost kept: { (w : Self) (cs is os ms ns : List ℕ) (i : ℕ) → CanLeave w cs is os i → length ms ≡ length is → length ns ≡ length os
        → CanLeave w cs ms ns i };
}

// The wires of a net in their table, linked from each component.
#[derive(Clone, Copy)]
pub struct Linked<'a> {
    pub wires: &'a [u16],
    pub head: &'a [u16; 256],
    pub after: &'a [u16; 1024],
    pub counts: Counts,
}

// A wire's number in the links, as an index.
fn wide(k: u16) -> usize
    ensures { result ≡ k }
{
    k as usize
}

impl<'a> Wiring for Linked<'a> {
    ghost leaving = { λ w i. linked_wires w.wires.now w.counts.wires w.head.now w.after.now i };

    ghost CanLeave = { λ w cs is os i. CanRun (wiring cs w.wires.now w.counts) is os
        × HasLinks w.wires.now w.counts.wires w.head.now w.after.now × (i < 256) };

    ghost kept = { λ w cs is os ms ns i v e f. (runs_kept (wiring cs w.wires.now w.counts) is os ms ns v.0 e f, v.1, v.2) };

    // The wires are taken in the order in which they are linked.
    fn send_leaving(
        &self,
        components: &[u64],
        inputs: &mut [u64],
        outputs: &[u64],
        following: &mut [u16],
        listed: &mut [u8; 256],
        count: usize,
        i: usize,
    ) -> usize {
        let mut filled = count;
        let mut k = wide(self.head[i]);
        while k < self.counts.wires {
            let wire = tables::wire_at(self.wires, k);
            filled = send_along(components, inputs, outputs, following, listed, filled, wire);
            k = wide(self.after[k]);
        }
        filled
    }
}
