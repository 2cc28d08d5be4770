// Calm or not, called from C.
ghost use Rattle.std.specs.Prelude.{◌||◌};
ghost use Rattle.tables.specs.Tables.{tables_of};
ghost use Rattle.questions.specs.Questions.{whether_gives, AsksCalm};
ghost use Rattle.words.specs.Said.{short};
ghost use Rattle.asking.specs.Asking.{CallAsks};

use crate::answers::whether_words;
use tables::Lent;
use words::{counts_in, lay};

// Whether all three lists name only Clocks: a word is lent for the answer, 1 or 0.
pub fn berxundar_calm(
    components: &[u64],
    inputs: &[u64],
    outputs: &[u64],
    wires: &[u16],
    current: &[u16],
    following: &[u16],
    standing: &[u16],
    counts: &[u64],
    found: &mut [u64],
) -> u32
    ensures { let lent = tables_of components.now inputs.now outputs.now wires.now
        current.now following.now standing.now in
        CallAsks whether_gives AsksCalm (short counts.now 7 || short found.old 1) counts.now found.old
        found.new
        lent result }
{
    if (counts.len() < 7) | (found.len() < 1) {
        return 131072;
    }
    let lent = Lent::new(
        components,
        inputs,
        outputs,
        wires,
        current,
        following,
        standing,
        counts_in(counts),
    );
    lay(found, questions::is_calm(&lent).map(whether_words))
}
