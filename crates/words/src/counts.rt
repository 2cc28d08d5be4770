// Counts as seven lent words.
ghost use Rattle.std.specs.Prelude.{◌≡◌, ◌*◌, ◌<◌, ◌≤◌, length, get_or};
ghost use Rattle.lists.specs.Lists.{overlay};
ghost use Rattle.kinds.specs.Given.{spoken};
ghost use Rattle.tables.specs.Tables.{count_words, answer_gives};
ghost use Rattle.words.specs.Words.{counts_in, values_in};

use crate::answers::{lay, lay_number};
use kinds::Refusal;
use tables::Counts;

// A word of a table, as a count; past the table's end 0 stands for it.
pub fn count_at(words: &[u64], at: usize) -> usize
    ensures { result ≡ get_or words.now at 0 }
{
    if at < words.len() {
        words[at] as usize
    } else {
        0
    }
}

// The counts that words hold.
pub fn counts_in(words: &[u64]) -> Counts
    ensures { result ≡ counts_in words.now }
{
    Counts {
        components: count_at(words, 0),
        inputs: count_at(words, 1),
        outputs: count_at(words, 2),
        wires: count_at(words, 3),
        current: count_at(words, 4),
        following: count_at(words, 5),
        standing: count_at(words, 6),
    }
}

// The words of counts.
pub(crate) fn counts_words(counts: Counts) -> [u64; 7]
    ensures { result ≡ count_words counts }
{
    [
        counts.components as u64,
        counts.inputs as u64,
        counts.outputs as u64,
        counts.wires as u64,
        counts.current as u64,
        counts.following as u64,
        counts.standing as u64,
    ]
}

// Lays the counts of an answer that changed the tables, and says its number. Crate changing calls it where seven count words are lent.
pub fn keep(words: &mut [u64], answer: Result<Counts, Refusal>) -> u32
    requires { (7 ≤ length words.old) × ((answer_gives answer).number < 65536) }
    ensures { (result ≡ 65536 * (answer_gives answer).number) × (words.new ≡ overlay (values_in (answer_gives answer)) words.old) }
{
    lay_number(words, answer.map(counts_words))
}

// The same of a load, whose refusals have a position. Crate host calls it likewise.
pub fn keep_loaded(words: &mut [u64], answer: Result<Counts, Refusal>) -> u32
    requires { (7 ≤ length words.old) × (spoken (answer_gives answer) < 4294967296) }
    ensures { (result ≡ spoken (answer_gives answer)) × (words.new ≡ overlay (values_in (answer_gives answer)) words.old) }
{
    lay(words, answer.map(counts_words))
}
