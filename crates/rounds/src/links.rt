// Links from each component to its wires, so that a visit looks at these wires alone: `head` has the first wire of each component, and
// `after` for each wire the next that leaves the same component. A number past the wires ends them.
ghost use Rattle.std.specs.Prelude.{◌≡◌, true, false, List, [], ◌∷◌, ℕ, ◌≤◌, ◌<◌, length};
ghost use Rattle.lists.specs.Lists.{from, has};
ghost use Rattle.tables.specs.Words.{WireInside, WiresInside};
ghost use Rattle.rounds.specs.Round.{order_list, is_order};
ghost use Rattle.rounds.specs.Links.{source_in, IsLinked, Ready, SourcesFew};

// The head of a component that no wire leaves: past the wires of every net.
pub const NO_WIRE: u16 = 65535;

// Puts wire k before the wires of its source that are linked already.
fn link_first(wires: &[u16], k: usize, head: &mut [u16; 256], after: &mut [u16; 1024])
    requires { (k < 1024) × (source_in wires.now k < 256) × WireInside wires.now k }
    ensures { (n : ℕ) (order : List ℕ) → k < n → has k order ≡ false
        → IsLinked wires.now n head.old after.old order
        → IsLinked wires.now n head.new after.new (k ∷ order) }
{
    let wire = tables::wire_at(wires, k);
    let source = wire.src.comp.0;
    let next = head[source];
    after[k] = next;
    head[source] = k as u16;
}

// Links the first `count` wires in stored order: the last is put first, and each before those behind it.
fn link(wires: &[u16], count: usize, head: &mut [u16; 256], after: &mut [u16; 1024])
    requires { (count ≤ 1024) × SourcesFew wires.now count × IsLinked wires.now count head.old after.old []
        × WiresInside wires.now count }
    ensures { IsLinked wires.now count head.new after.new (from 0 count) }
{
    for k in (0..count).rev() {
        link_first(wires, k, head, after);
    }
}

// Whether the first `count` entries of an order name each of `count` wires once: each wire that is named is marked. Crate simulator calls
// it for the wires of a net.
pub fn is_order(order: &[u16], count: usize) -> bool
    requires { (count ≤ 1024) × (count ≤ length order.now) }
    ensures { result ≡ is_order count order.now }
{
    let mut seen = [0u8; 1024];
    for entry in &order[..count] {
        let named = *entry as usize;
        if count <= named {
            return false;
        }
        if seen[named] != 0 {
            return false;
        }
        seen[named] = 1;
    }
    true
}

// Links the wires in an order: the last is put first, and each before those behind it. Crate simulator calls it for an order of a net's
// wires.
pub fn link_by(
    wires: &[u16],
    order: &[u16],
    count: usize,
    head: &mut [u16; 256],
    after: &mut [u16; 1024],
)
    requires { (count ≤ 1024) × (count ≤ length order.now) × (is_order count order.now ≡ true) × SourcesFew wires.now count
        × IsLinked wires.now count head.old after.old [] × WiresInside wires.now count }
    ensures { IsLinked wires.now count head.new after.new (order_list count order.now) }
{
    for entry in order[..count].iter().rev() {
        link_first(wires, *entry as usize, head, after);
    }
}

// Links the wires before a round that visits `current` components, unless that is done or there is none to visit. The answer is whether
// they are linked. Crate simulator calls it for the wires of a net, before each round of a call.
pub fn link_once(
    wires: &[u16],
    count: usize,
    current: usize,
    linked: bool,
    head: &mut [u16; 256],
    after: &mut [u16; 1024],
) -> bool
    requires { (count ≤ 1024) × SourcesFew wires.now count × Ready linked wires.now count head.old after.old
        × WiresInside wires.now count }
    ensures { (0 < current → result ≡ true) × Ready result wires.now count head.new after.new }
{
    if linked | (current == 0) {
        return linked;
    }
    link(wires, count, head, after);
    true
}
