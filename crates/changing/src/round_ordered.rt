// A round in an order of all wires, called from C.
ghost use Rattle.tables.specs.Tables.{tables_of};
ghost use Rattle.words.specs.Said.{short};
ghost use Rattle.changing.specs.Changing.{CallRoundsOrdered};

use words::{counts_in, keep};

// A round at a time in which each component's wires follow an order: its first words, as many as there are wires, name each wire once. A
// table of 1,024 words is lent for the order, and one of 256 words for which outputs changed of each component evaluated.
pub fn berxundar_round_ordered(
    components: &[u64],
    inputs: &mut [u64],
    outputs: &mut [u64],
    wires: &[u16],
    current: &mut [u16],
    following: &mut [u16],
    standing: &mut [u16],
    counts: &mut [u64],
    time: u64,
    order: &[u16],
    moved: &mut [u64],
) -> u32
    ensures { let lent = tables_of components.now inputs.old outputs.old wires.now
        current.old following.old standing.old in
        let left = tables_of components.now inputs.new outputs.new wires.now
        current.new following.new standing.new in
        CallRoundsOrdered time order.now (short counts.old 7) counts.old counts.new moved.old
        moved.new lent left result }
{
    if counts.len() < 7 {
        return 131072;
    }
    let answer = simulator::round_ordered(
        components,
        inputs,
        outputs,
        wires,
        current,
        following,
        standing,
        order,
        moved,
        counts_in(counts),
        time,
    );
    keep(counts, answer)
}
