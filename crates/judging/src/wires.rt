// Wires judged: whether their ends hold the same number.
ghost use Rattle.std.specs.Prelude.{◌≡◌, not, ◌||◌, List, [], ℕ, ◌<◌};
ghost use Rattle.lists.specs.Lists.{every, has};
ghost use Rattle.tables.specs.declared.Wire.{Wire};
ghost use Rattle.tables.specs.Tables.{wires_in};
ghost use Rattle.tables.specs.Words.{WireInside, WiresInside, no_counts, wire_in};
ghost use Rattle.net.specs.Parts.{lent};
ghost use Rattle.rounds.specs.Links.{source_in, IsListed};
ghost use Rattle.judging.specs.Judged.{wire_agrees};
ghost use Rattle.judging.specs.Steps.{CanCompare};

use tables::{Counts, Wire};

// Whether a wire's output and input hold the same number.
fn wire_agrees(components: &[u64], inputs: &[u64], outputs: &[u64], wire: Wire) -> bool
    requires { CanCompare (lent components.now inputs.now outputs.now [] no_counts) wire }
    ensures { result ≡ wire_agrees (lent components.now inputs.now outputs.now [] no_counts) wire }
{
    let source = tables::first_output(components, wire.src.comp.0) + wire.src.port as usize;
    let target = tables::first_input(components, wire.dst.comp.0) + wire.dst.port as usize;
    outputs[source] == inputs[target]
}

// Whether wire k agrees, where the component that it leaves is marked.
fn leaves_agreeing(
    components: &[u64],
    inputs: &[u64],
    outputs: &[u64],
    wires: &[u16],
    k: usize,
    marks: &[u8; 256],
) -> bool
    requires { WireInside wires.now k × CanCompare (lent components.now inputs.now outputs.now [] no_counts) (wire_in wires.now k) }
    ensures { (xs : List ℕ) → IsListed marks.now xs → result ≡ (not (has (source_in wires.now k) xs)
        || wire_agrees (lent components.now inputs.now outputs.now [] no_counts) (wire_in wires.now k)) }
{
    let wire = tables::wire_at(wires, k);
    let from = wire.src.comp.0;
    if marks[from] == 0 {
        return true;
    }
    wire_agrees(components, inputs, outputs, wire)
}

// Whether every wire that leaves a marked component agrees.
pub(crate) fn judge_wires(
    components: &[u64],
    inputs: &[u64],
    outputs: &[u64],
    wires: &[u16],
    counts: Counts,
    marks: &[u8; 256],
) -> bool
    requires { WiresInside wires.now counts.wires
        × ((k : ℕ) → k < counts.wires → CanCompare (lent components.now inputs.now outputs.now [] no_counts) (wire_in wires.now k)) }
    ensures { (xs : List ℕ) → IsListed marks.now xs
        → result ≡ every (λ (w : Wire). not (has w.src.comp.0 xs)
        || wire_agrees (lent components.now inputs.now outputs.now [] no_counts) w)
        (wires_in (lent components.now inputs.now outputs.now wires.now counts)) }
{
    for k in 0..counts.wires {
        if !leaves_agreeing(components, inputs, outputs, wires, k, marks) {
            return false;
        }
    }
    true
}
