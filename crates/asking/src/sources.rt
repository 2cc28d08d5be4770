// A component's sources, called from C.
ghost use Rattle.std.specs.Prelude.{◌||◌};
ghost use Rattle.tables.specs.Tables.{tables_of};
ghost use Rattle.questions.specs.Questions.{AsksSources};
ghost use Rattle.words.specs.Said.{short};
ghost use Rattle.asking.specs.Asking.{CallLists};

use crate::answers::list_words;
use tables::{FlatIdx, Lent};
use words::{counts_in, lay};

// The sources of the component at an index, into a list of 256; how many they are, into a lent word.
pub fn berxundar_sources(
    components: &[u64],
    inputs: &[u64],
    outputs: &[u64],
    wires: &[u16],
    current: &[u16],
    following: &[u16],
    standing: &[u16],
    counts: &[u64],
    index: usize,
    list: &mut [u16],
    found: &mut [u64],
) -> u32
    ensures { let lent = tables_of components.now inputs.now outputs.now wires.now
        current.now following.now standing.now in
        CallLists (λ T. AsksSources T index) (short counts.now 7 || short found.old 1) counts.now
        list.old list.new
        found.old found.new lent result }
{
    if (counts.len() < 7) | (found.len() < 1) {
        return 131072;
    }
    let lent = Lent::new(
        components,
        inputs,
        outputs,
        wires,
        current,
        following,
        standing,
        counts_in(counts),
    );
    lay(
        found,
        questions::sources_of(&lent, FlatIdx(index), list).map(list_words),
    )
}
