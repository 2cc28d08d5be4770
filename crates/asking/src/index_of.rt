// The index of an id, called from C.
ghost use Rattle.std.specs.Prelude.{◌||◌};
ghost use Rattle.tables.specs.Tables.{tables_of};
ghost use Rattle.questions.specs.Questions.{index_gives, AsksIndex};
ghost use Rattle.words.specs.Said.{short};
ghost use Rattle.asking.specs.Asking.{CallAsks};

use crate::answers::index_words;
use kinds::Id;
use tables::Lent;
use words::{counts_in, lay};

// The index of the component with an id, into a lent word.
pub fn berxundar_index(
    components: &[u64],
    inputs: &[u64],
    outputs: &[u64],
    wires: &[u16],
    current: &[u16],
    following: &[u16],
    standing: &[u16],
    counts: &[u64],
    id: u32,
    found: &mut [u64],
) -> u32
    ensures { let lent = tables_of components.now inputs.now outputs.now wires.now
        current.now following.now standing.now in
        CallAsks index_gives (λ T. AsksIndex T id) (short counts.now 7 || short found.old 1) counts.now
        found.old found.new
        lent result }
{
    if (counts.len() < 7) | (found.len() < 1) {
        return 131072;
    }
    let lent = Lent::new(
        components,
        inputs,
        outputs,
        wires,
        current,
        following,
        standing,
        counts_in(counts),
    );
    lay(found, questions::index_of(&lent, Id(id)).map(index_words))
}
