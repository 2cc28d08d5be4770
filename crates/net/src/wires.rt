// The wires of a net, in one pass: "wires have ends that exist and equal widths, no input has two wires"
ghost use Rattle.std.specs.Prelude.{◌≡◌, true, ◌&&◌, [], ◌<◌, ◌≤◌};
ghost use Rattle.net.specs.Net.{wire_fits, wires_fit, inputs_once, ports_follow};
ghost use Rattle.net.specs.Parts.{lent, Widths};
ghost use Rattle.tables.specs.Words.{RowInside, RowsInside, WiresInside, uncounted};
ghost use Rattle.tables.specs.Tables.{input_place};

use tables::{Counts, Wire};

// Whether the ends of a wire exist and have equal widths, where the widths of the components' ports are noted.
fn wire_fits(
    components: &[u64],
    counts: Counts,
    entering: &[u8; 256],
    leaving: &[u8; 256],
    wire: Wire,
) -> bool
    requires { (counts.components ≤ 256) × RowsInside components.now counts.components
        × Widths components.now counts.components entering.now leaving.now }
    ensures { result ≡ wire_fits (lent components.now [] [] [] counts) wire }
{
    let n = counts.components;
    let from = wire.src.comp.0;
    let to = wire.dst.comp.0;
    if !((from < n) & (to < n)) {
        return false;
    }
    let outputs = tables::output_count(components, from);
    let inputs = tables::input_count(components, to);
    ((wire.src.port as usize) < outputs)
        & ((wire.dst.port as usize) < inputs)
        & (leaving[from] == entering[to])
}

// Where the input that a wire enters stands in its table.
fn place_of(components: &[u64], wire: Wire) -> usize
    requires { RowInside components.now wire.dst.comp.0 × (input_place (uncounted components.now []) wire.dst < 1024) }
    ensures { result ≡ input_place (uncounted components.now []) wire.dst }
{
    tables::first_input(components, wire.dst.comp.0) + wire.dst.port as usize
}

// Whether those of all wires do, and no input has two wires: each input that a wire enters is marked.
pub(crate) fn wires_right(
    components: &[u64],
    wires: &[u16],
    counts: Counts,
    entering: &[u8; 256],
    leaving: &[u8; 256],
) -> bool
    requires { (counts.components ≤ 256) × (counts.inputs ≤ 1024) × RowsInside components.now counts.components
        × WiresInside wires.now counts.wires × Widths components.now counts.components entering.now leaving.now
        × (ports_follow (lent components.now [] [] [] counts) ≡ true) }
    ensures { result ≡ (wires_fit (lent components.now [] [] wires.now counts)
        && inputs_once (lent components.now [] [] wires.now counts)) }
{
    let n = counts.wires;
    let mut seen = [0u8; 1024];
    for k in 0..n {
        let wire = tables::wire_at(wires, k);
        if !wire_fits(components, counts, entering, leaving, wire) {
            return false;
        }
        let place = place_of(components, wire);
        if seen[place] != 0 {
            return false;
        }
        seen[place] = 1;
    }
    true
}
