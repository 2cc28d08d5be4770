// Counts as five lent words, and answers in them.
ghost use Rattle.std.specs.Prelude.{◌≡◌, ℕ, ◌<◌, ◌≤◌, length, take, drop};
ghost use Rattle.lists.specs.Lists.{overlay};
ghost use Rattle.kinds.specs.Given.{spoken};
ghost use Rattle.words.specs.Words.{values_in};
ghost use Rattle.simulator.specs.declared.Ran.{Ran};
ghost use Rattle.slow.specs.declared.SlowCounts.{SlowCounts};
ghost use Rattle.slow.specs.Slow.{slow_words, slow_gives, slow_ran_gives};
ghost use Rattle.slowly.specs.Slowly.{slow_counts_in};

use kinds::Refusal;
use simulator::Ran;
use slow::SlowCounts;
use words::{count_at, lay, lay_ran};

// The counts that words hold.
pub(crate) fn counts_in(words: &[u64]) -> SlowCounts
    ensures { result ≡ slow_counts_in words.now }
{
    SlowCounts {
        inputs: count_at(words, 0),
        outputs: count_at(words, 1),
        current: count_at(words, 2),
        following: count_at(words, 3),
        standing: count_at(words, 4),
    }
}

// The words of counts.
fn counts_words(counts: SlowCounts) -> [u64; 5]
    ensures { result ≡ slow_words counts }
{
    [
        counts.inputs as u64,
        counts.outputs as u64,
        counts.current as u64,
        counts.following as u64,
        counts.standing as u64,
    ]
}

// The words of the counts of a run.
fn ran_counts_words(ran: Ran<SlowCounts>) -> [u64; 5]
    ensures { result ≡ slow_words ran.counts }
{
    counts_words(ran.counts)
}

// Lays the counts of an answer that changed the tables, and says its number and position. Where it is done there are five words.
pub(crate) fn keep(words: &mut [u64], answer: Result<SlowCounts, Refusal>) -> u32
    requires { ((m : SlowCounts) → answer ≡ Ok m → 5 ≤ length words.old) × (spoken (slow_gives answer) < 4294967296) }
    ensures { (result ≡ spoken (slow_gives answer)) × (words.new ≡ overlay (values_in (slow_gives answer)) words.old) }
{
    lay(words, answer.map(counts_words))
}

// The counts of a run, and its three words, likewise.
pub(crate) fn keep_run(
    words: &mut [u64],
    found: &mut [u64],
    answer: Result<Ran<SlowCounts>, Refusal>,
) -> u32
    requires { ((ran : Ran SlowCounts) → answer ≡ Ok ran → (5 ≤ length words.old) × (3 ≤ length found.old))
        × (spoken (slow_ran_gives answer) < 4294967296) }
    ensures { (result ≡ spoken (slow_ran_gives answer))
        × (words.new ≡ overlay (drop 3 (values_in (slow_ran_gives answer))) words.old)
        × (found.new ≡ overlay (take 3 (values_in (slow_ran_gives answer))) found.old) }
{
    lay(words, answer.map(ran_counts_words));
    lay_ran(found, answer)
}
