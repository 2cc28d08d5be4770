// "counts are within these limits"
ghost use Rattle.std.specs.Prelude.{◌≡◌};
ghost use Rattle.net.specs.Net.{counts_within};

use tables::Counts;

// Full size: the most entries of each table.
const COMPONENTS: usize = 256;

const PORTS: usize = 1024;

const WIRES: usize = 1024;

// Whether each count is within the full size of its table; a list names no more than all components.
pub(crate) fn counts_within(counts: Counts) -> bool
    ensures { result ≡ counts_within counts }
{
    (counts.components <= COMPONENTS)
        & (counts.inputs <= PORTS)
        & (counts.outputs <= PORTS)
        & (counts.wires <= WIRES)
        & (counts.current <= COMPONENTS)
        & (counts.following <= COMPONENTS)
        & (counts.standing <= COMPONENTS)
}
