// A look, called from C.
ghost use Rattle.std.specs.Prelude.{◌≡◌, [], ◌∷◌, ◌&&◌, ◌||◌};
ghost use Rattle.component.specs.Record.{sized};
ghost use Rattle.tables.specs.Tables.{tables_of};
ghost use Rattle.look.specs.Look.{Looks};
ghost use Rattle.words.specs.Said.{short};
ghost use Rattle.host.specs.Host.{CallLooks};

use look::Looked;
use tables::Lent;
use words::{counts_in, lay};

// The words of a look: how many inputs and how many outputs are shown.
fn looked_words(looked: Looked) -> [u64; 2]
    ensures { result ≡ looked.inputs ∷ looked.outputs ∷ [] }
{
    [looked.inputs as u64, looked.outputs as u64]
}

// Looks at the component that a path of ids names, from the root's children down: numbers and widths of its ports, into two lists of 256,
// inputs first; how many inputs and outputs they are, into two lent words.
pub fn berxundar_look(
    file: &[u8],
    components: &[u64],
    inputs: &[u64],
    outputs: &[u64],
    wires: &[u16],
    current: &[u16],
    following: &[u16],
    standing: &[u16],
    counts: &[u64],
    path: &[u32],
    numbers: &mut [u64],
    widths: &mut [u64],
    found: &mut [u64],
) -> u32
    ensures { let lent = tables_of components.now inputs.now outputs.now wires.now
        current.now following.now standing.now in
        CallLooks (λ T. Looks file.now T path.now)
        (sized file.now && (short counts.now 7 || short found.old 2)) counts.now
        numbers.old numbers.new widths.old widths.new found.old found.new lent result }
{
    if !component::is_sized(file) {
        return 65536;
    }
    if (counts.len() < 7) | (found.len() < 2) {
        return 131072;
    }
    let lent = Lent::new(
        components,
        inputs,
        outputs,
        wires,
        current,
        following,
        standing,
        counts_in(counts),
    );
    lay(
        found,
        look::look(file, &lent, path, numbers, widths).map(looked_words),
    )
}
