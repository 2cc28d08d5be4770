// Rounds and run until calm as calls, on any tables and counts. Rule: docs/SPECIFICATION.md, "Rounds" and "Numbers given back".
ghost use Rattle.std.specs.Prelude.{◌≡◌, ◌≤◌, length};
ghost use Rattle.lists.specs.Lists.{overlay};
ghost use Rattle.tables.specs.Tables.{tables_of, counts_after};
ghost use Rattle.net.specs.Net.{net_number};
ghost use Rattle.rounds.specs.Round.{round_bits, round_of};
ghost use Rattle.simulator.specs.Calls.{Rounds, run, counts_after_run, Runs};

use crate::Ran;
use crate::runs::{Engine, Links, Stored, WORDS, run_over};
use kinds::{Refusal, refused_by};
use net::check_net;
use rounds::NO_WIRE;
use tables::{Counts, Lent};

// A round of a net, of which no wire is linked yet. The links stand here and not in the call: one that is refused clears none.
fn round_of_net(
    components: &[u64],
    inputs: &mut [u64],
    outputs: &mut [u64],
    wires: &[u16],
    current: &mut [u16],
    following: &mut [u16],
    standing: &mut [u16],
    moved: &mut [u64],
    counts: Counts,
    time: u64,
) -> Counts
    requires { (net_number (tables_of components.now inputs.old outputs.old wires.now current.old following.old standing.old counts) ≡ 0)
        × (256 ≤ length moved.old) }
    ensures { let before = tables_of components.now inputs.old outputs.old wires.now
        current.old following.old standing.old counts in
        let after = tables_of components.now inputs.new outputs.new wires.now
        current.new following.new standing.new result in
        (after ≡ round_of time before) × (moved.new ≡ overlay (round_bits time before) moved.old) }
{
    let engine = Stored { wires };
    let mut links = Links {
        head: [NO_WIRE; 256],
        after: [0; 1024],
        linked: false,
    };
    engine.round(
        &mut links, components, inputs, outputs, current, following, standing, moved, counts, time,
    )
}

// A round at a time, on any tables and counts: 2, 16. Which outputs changed of component k of the current list is written to entry k of
// `moved`, bit i for output i; entries past the list are kept. "A refusal of any call changes no lent table."
pub fn round(
    components: &[u64],
    inputs: &mut [u64],
    outputs: &mut [u64],
    wires: &[u16],
    current: &mut [u16],
    following: &mut [u16],
    standing: &mut [u16],
    moved: &mut [u64],
    counts: Counts,
    time: u64,
) -> Result<Counts, Refusal>
    ensures { let before = tables_of components.now inputs.old outputs.old wires.now
        current.old following.old standing.old counts in
        let after = tables_of components.now inputs.new outputs.new wires.now
        current.new following.new standing.new (counts_after result counts) in
        Rounds time moved.old before result after moved.new }
{
    if moved.len() < WORDS {
        return Err(refused_by(2));
    }
    let lent = Lent::new(
        components, inputs, outputs, wires, current, following, standing, counts,
    );
    check_net(&lent)?;
    Ok(round_of_net(
        components, inputs, outputs, wires, current, following, standing, moved, counts, time,
    ))
}

// Rounds of a net, one after the other, at most `limit` of them, until the first that leaves calm. No wire is linked yet.
fn net_run(
    components: &[u64],
    inputs: &mut [u64],
    outputs: &mut [u64],
    wires: &[u16],
    current: &mut [u16],
    following: &mut [u16],
    standing: &mut [u16],
    counts: Counts,
    time: u64,
    limit: u16,
) -> Ran<Counts>
    requires { net_number (tables_of components.now inputs.old outputs.old wires.now current.old following.old standing.old counts) ≡ 0 }
    ensures { record {
      tables = tables_of components.now inputs.new outputs.new wires.now
          current.new following.new standing.new result.counts;
      rounds = result.rounds;
      evaluations = result.evaluations;
      moved = result.moved;
    }
        ≡ run limit time (tables_of components.now inputs.old outputs.old wires.now current.old
        following.old standing.old counts) }
{
    let engine = Stored { wires };
    let mut links = Links {
        head: [NO_WIRE; 256],
        after: [0; 1024],
        linked: false,
    };
    run_over(
        &engine, &mut links, components, inputs, outputs, current, following, standing, counts,
        time, limit,
    )
}

// Run until calm, on any tables and counts, with a time and a limit of rounds: 2, 16.
pub fn run_until_calm(
    components: &[u64],
    inputs: &mut [u64],
    outputs: &mut [u64],
    wires: &[u16],
    current: &mut [u16],
    following: &mut [u16],
    standing: &mut [u16],
    counts: Counts,
    time: u64,
    limit: u16,
) -> Result<Ran<Counts>, Refusal>
    ensures { let before = tables_of components.now inputs.old outputs.old wires.now
        current.old following.old standing.old counts in
        let after = tables_of components.now inputs.new outputs.new wires.now
        current.new following.new standing.new (counts_after_run result counts) in
        Runs time limit before result after }
{
    let lent = Lent::new(
        components, inputs, outputs, wires, current, following, standing, counts,
    );
    check_net(&lent)?;
    Ok(net_run(
        components, inputs, outputs, wires, current, following, standing, counts, time, limit,
    ))
}
