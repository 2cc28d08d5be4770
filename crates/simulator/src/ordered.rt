// A round that is handed an order of all wires, on any tables and counts. Rule: docs/SPECIFICATION.md, "Rounds" (orders) and "Numbers
// given back". The Rust has none but its stored order.
ghost use Rattle.std.specs.Prelude.{◌≡◌};
ghost use Rattle.lists.specs.Lists.{overlay};
ghost use Rattle.kinds.specs.Given.{refusing};
ghost use Rattle.tables.specs.Tables.{tables_of, counts_after};
ghost use Rattle.rounds.specs.Round.{bits_by, round_by};
ghost use Rattle.simulator.specs.Ordered.{wires_by, ordered_number, RoundsOrdered};

use crate::runs::WORDS;
use kinds::{Refusal, refused_by};
use net::check_net;
use rounds::{NO_WIRE, is_order, link_by, net_round};
use tables::{Counts, Lent};

// Full size of an order's table: a word for each wire that a net can have.
const ORDER: usize = 1024;

// What such a round checks: 2, 16, 24.
fn check_order(lent: &Lent, order: &[u16], moved: &[u64]) -> Result<(), Refusal>
    ensures { result ≡ refusing (ordered_number lent.now order.now moved.now) }
{
    if (order.len() < ORDER) | (moved.len() < WORDS) {
        return Err(refused_by(2));
    }
    check_net(lent)?;
    if !is_order(order, lent.counts().wires) {
        return Err(refused_by(24));
    }
    Ok(())
}

// A round that no check refuses. The links stand here and not in the call: one that is refused clears none.
fn round_in_order(
    components: &[u64],
    inputs: &mut [u64],
    outputs: &mut [u64],
    wires: &[u16],
    current: &mut [u16],
    following: &mut [u16],
    standing: &mut [u16],
    order: &[u16],
    moved: &mut [u64],
    counts: Counts,
    time: u64,
) -> Counts
    requires { ordered_number (tables_of components.now inputs.old outputs.old wires.now current.old following.old standing.old counts)
        order.now moved.old ≡ 0 }
    ensures { let before = tables_of components.now inputs.old outputs.old wires.now
        current.old following.old standing.old counts in
        let after = tables_of components.now inputs.new outputs.new wires.now
        current.new following.new standing.new result in
        (after ≡ round_by (wires_by before order.now) time before)
        × (moved.new ≡ overlay (bits_by (wires_by before order.now) time before) moved.old) }
{
    let mut head = [NO_WIRE; 256];
    let mut after = [0u16; 1024];
    link_by(wires, order, counts.wires, &mut head, &mut after);
    net_round(
        components, inputs, outputs, wires, &head, &after, current, following, standing, moved,
        counts, time,
    )
}

// A round at a time in which each component's wires follow the order: its first words, as many as there are wires, name each wire once.
// Else it is a round: which outputs changed is written to `moved` likewise, and a refusal changes no table.
pub fn round_ordered(
    components: &[u64],
    inputs: &mut [u64],
    outputs: &mut [u64],
    wires: &[u16],
    current: &mut [u16],
    following: &mut [u16],
    standing: &mut [u16],
    order: &[u16],
    moved: &mut [u64],
    counts: Counts,
    time: u64,
) -> Result<Counts, Refusal>
    ensures { let before = tables_of components.now inputs.old outputs.old wires.now
        current.old following.old standing.old counts in
        let after = tables_of components.now inputs.new outputs.new wires.now
        current.new following.new standing.new (counts_after result counts) in
        RoundsOrdered time order.now moved.old before result after moved.new }
{
    let lent = Lent::new(
        components, inputs, outputs, wires, current, following, standing, counts,
    );
    check_order(&lent, order, moved)?;
    Ok(round_in_order(
        components, inputs, outputs, wires, current, following, standing, order, moved, counts,
        time,
    ))
}
