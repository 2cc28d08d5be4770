// Answers in lent words.
ghost use Rattle.std.specs.Prelude.{◌≡◌, ℕ, ◌*◌, ◌<◌, ◌≤◌, List, [], ◌∷◌, length, take, drop};
ghost use Rattle.lists.specs.Lists.{overlay};
ghost use Rattle.kinds.specs.Given.{spoken};
ghost use Rattle.tables.specs.Tables.{count_words};
ghost use Rattle.simulator.specs.declared.Ran.{Ran};
ghost use Rattle.simulator.specs.Calls.{ran_gives};
ghost use Rattle.words.specs.Words.{words_give, run_words_give, values_in, side_of};

use crate::counts::counts_words;
use kinds::Refusal;
use questions::Side;
use simulator::Ran;
use tables::Counts;

// A number, as a call says it. Crate asking calls it for a number of the engine's, which are below 65,536.
pub fn speak(number: u32) -> u32
    requires { number < 65536 }
    ensures { result ≡ 65536 * number }
{
    65536 * number
}

// Side 0 is the inputs, any other the outputs.
pub fn side_of(number: u32) -> Side
    ensures { result ≡ side_of number }
{
    if number == 0 {
        Side::Inputs
    } else {
        Side::Outputs
    }
}

// Lays words at the front of lent ones, which keep what they held past them. One by one: the library's `copy_from_slice` calls `memmove`, and the
// archive may take only `memcpy` and `memset` from outside.
fn lay_words<const N: usize>(lent: &mut [u64], words: [u64; N])
    requires { N ≤ length lent.old }
    ensures { lent.new ≡ overlay words.entry lent.old }
{
    for (at, word) in words.iter().enumerate() {
        lent[at] = *word;
    }
}

// Lays the words of an answer at the front of lent ones, and says its number. A refusal lays nothing, and its position is not said. `keep` and
// `lay_run` call it, and any crate may whose answers have no position, where what is done has room.
pub fn lay_number<const N: usize>(found: &mut [u64], answer: Result<[u64; N], Refusal>) -> u32
    requires room { (words : List ℕ) → answer ≡ Ok words → N ≤ length found.old }
    requires small { (words_give answer).number < 65536 }
    ensures said { result ≡ 65536 * (words_give answer.entry).number }
    ensures laid { found.new ≡ overlay (values_in (words_give answer.entry)) found.old }
{
    match answer {
        Ok(words) => {
            lay_words(found, words);
            0
        }
        Err(refusal) => speak(refusal.number),
    }
}

// The same with the position said beside the number. Crates asking, host and slowly call it with the words of their answers.
pub fn lay<const N: usize>(found: &mut [u64], answer: Result<[u64; N], Refusal>) -> u32
    requires room { (words : List ℕ) → answer ≡ Ok words → N ≤ length found.old }
    requires small { spoken (words_give answer) < 4294967296 }
    ensures said { result ≡ spoken (words_give answer.entry) }
    ensures laid { found.new ≡ overlay (values_in (words_give answer.entry)) found.old }
{
    match answer {
        Ok(words) => {
            lay_words(found, words);
            0
        }
        Err(refusal) => 65536 * refusal.number + refusal.position,
    }
}

// The words of the counts of a run.
fn ran_counts_words(ran: Ran<Counts>) -> [u64; 7]
    ensures { result ≡ count_words ran.counts }
{
    counts_words(ran.counts)
}

// The three words of a run.
fn ran_words<C: Copy>(ran: Ran<C>) -> [u64; 3]
    ensures { result ≡ ran.rounds ∷ ran.evaluations ∷ ran.moved ∷ [] }
{
    [ran.rounds as u64, ran.evaluations as u64, ran.moved as u64]
}

// Lays the three words of a run: rounds, evaluations, and how many times an output changed. Crate slowly calls it likewise.
pub fn lay_ran<C: Copy>(found: &mut [u64], answer: Result<Ran<C>, Refusal>) -> u32
    requires room { (ran : Ran C) → answer ≡ Ok ran → 3 ≤ length found.old }
    requires small { spoken (run_words_give answer) < 4294967296 }
    ensures said { result ≡ spoken (run_words_give answer) }
    ensures laid { found.new ≡ overlay (values_in (run_words_give answer)) found.old }
{
    lay(found, answer.map(ran_words))
}

// The counts of a run, and its three words; the answer says its number. Crate changing calls it likewise.
pub fn lay_run(words: &mut [u64], found: &mut [u64], answer: Result<Ran<Counts>, Refusal>) -> u32
    requires { (7 ≤ length words.old) × (3 ≤ length found.old) × ((ran_gives answer).number < 65536) }
    ensures { (result ≡ 65536 * (ran_gives answer).number)
        × (words.new ≡ overlay (drop 3 (values_in (ran_gives answer))) words.old)
        × (found.new ≡ overlay (take 3 (values_in (ran_gives answer))) found.old) }
{
    lay_number(words, answer.map(ran_counts_words));
    lay_number(found, answer.map(ran_words))
}
