// The rounds of a listing, until calm, in a lent buffer. Rule: docs/SPECIFICATION.md, "The lamp drawing and marked cases".
#![tactic(auto)]

ghost use Rattle.std.specs.Prelude.{◌≡◌, ◌≤◌, length};
ghost use Rattle.tables.specs.Tables.{tables_of, counts_after};
ghost use Rattle.net.specs.Net.{net_number};
ghost use Rattle.text.specs.Text.{Puts};
ghost use Rattle.running.specs.Running.{ending, round_lines};
ghost use Rattle.running.specs.Made.{RoundMade, calm_of};

use kinds::Refusal;
use tables::{Counts, Lent};

// The most rounds.
const ROUNDS: u64 = 16;

// What a round leaves: the counts, and whether it left calm.
#[derive(Clone, Copy)]
struct Left {
    counts: Counts,
    calm: bool,
}

// The counts of an answer; after a refusal those before it.
fn counts_of(answer: Result<Counts, Refusal>, before: Counts) -> Counts
    ensures { result ≡ counts_after answer before }
{
    let Ok(counts) = answer else {
        return before;
    };
    counts
}

// Calm or not; after a refusal there is nothing more to run.
fn calm_of(answer: Result<bool, Refusal>) -> bool
    ensures { result ≡ calm_of answer }
{
    let Ok(calm) = answer else {
        return true;
    };
    calm
}

// Runs a round of a net at time 0, and asks whether it left calm. On a net neither call is refused. The listing has no use for the bits.
fn round_left(
    components: &[u64],
    inputs: &mut [u64],
    outputs: &mut [u64],
    wires: &[u16],
    current: &mut [u16],
    following: &mut [u16],
    standing: &mut [u16],
    counts: Counts,
) -> Left
    requires { net_number (tables_of components.now inputs.old outputs.old wires.now current.old following.old standing.old counts) ≡ 0 }
    ensures { let before = tables_of components.now inputs.old outputs.old wires.now
        current.old following.old standing.old counts in
        let after = tables_of components.now inputs.new outputs.new wires.now
        current.new following.new standing.new result.counts in
        RoundMade before after result.calm }
{
    let mut moved = [0u64; 256];
    let made = simulator::round(
        components, inputs, outputs, wires, current, following, standing, &mut moved, counts, 0,
    );
    let new = counts_of(made, counts);
    let lent = Lent::new(
        components, inputs, outputs, wires, current, following, standing, new,
    );
    Left {
        counts: new,
        calm: calm_of(questions::is_calm(&lent)),
    }
}

// How the rounds end.
fn put_end(out: &mut [u8], at: usize, calm: bool) -> usize
    ensures { Puts out.old at (ending calm) out.new result }
{
    if calm {
        return text::put_bytes(out, at, b"calm\n");
    }
    text::put_bytes(out, at, b"not calm\n")
}

// The rounds of a net at time 0 until calm, sixteen at most, and how they end. Crate listing calls it for the net that a load left.
pub fn put_rounds(
    components: &[u64],
    inputs: &mut [u64],
    outputs: &mut [u64],
    wires: &[u16],
    current: &mut [u16],
    following: &mut [u16],
    standing: &mut [u16],
    counts: Counts,
    out: &mut [u8],
    at: usize,
) -> usize
    requires { (at ≤ length out.old) × (net_number (tables_of components.now inputs.old outputs.old wires.now current.old
        following.old standing.old counts) ≡ 0) }
    ensures { let before = tables_of components.now inputs.old outputs.old wires.now
        current.old following.old standing.old counts in
        Puts out.old at (round_lines 16 1 before) out.new result }
{
    let mut reached = counts;
    let mut next = at;
    for round in 1..=ROUNDS {
        let left = round_left(
            components, inputs, outputs, wires, current, following, standing, reached,
        );
        reached = left.counts;
        next = lines::put_round(out, next, round, current, reached.current);
        if left.calm {
            return put_end(out, next, true);
        }
    }
    put_end(out, next, false)
}
