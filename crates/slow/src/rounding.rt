// Rounds and run until calm as calls of the slow engine, on any file, tables and counts. Rule: docs/SPECIFICATION.md, "The slow engine".
ghost use Rattle.std.specs.Prelude.{◌≡◌, []};
ghost use Rattle.component.specs.Record.{record_at, record_count};
ghost use Rattle.slow.specs.Slow.{slow_tables_of, slow_round_of, slow_bits, slow_counts_after, slow_counts_after_run, SlowRounds, SlowRuns, slow_counts_of};
ghost use Rattle.slow.specs.Sending.{InRun};

use crate::SlowCounts;
use crate::leading::Drawn;
use crate::preparing::{are_full, counts_for, prepare};
use kinds::Refusal;
use rounds::round_over;
use simulator::{Engine, Ran, run_over};
use tables::Counts;

// Full size of a table of bits: a word for each component that a round can evaluate.
const WORDS: usize = 256;

// The counts of the five tables.
fn slow_counts(counts: Counts) -> SlowCounts
    ensures { result ≡ slow_counts_of counts }
{
    SlowCounts {
        inputs: counts.inputs,
        outputs: counts.outputs,
        current: counts.current,
        following: counts.following,
        standing: counts.standing,
    }
}

// A round at a time: 1, 2, 3 to 15, 20. Which outputs changed of component k of the current list is written to entry k of `moved`, bit i for
// output i; entries past the list are kept. A refusal changes no table.
pub fn round(
    file: &[u8],
    inputs: &mut [u64],
    outputs: &mut [u64],
    current: &mut [u16],
    following: &mut [u16],
    standing: &mut [u16],
    moved: &mut [u64],
    counts: SlowCounts,
    time: u64,
) -> Result<SlowCounts, Refusal>
    ensures { let before = slow_tables_of inputs.old outputs.old current.old following.old
        standing.old counts in
        let after = slow_tables_of inputs.new outputs.new current.new following.new
        standing.new (slow_counts_after result counts) in
        SlowRounds file.now time moved.old before result after moved.new }
{
    let mut index = [0u16; 3072];
    let mut indexes = [0u16; 256];
    let mut components = [0u64; 2048];
    let long = are_full(inputs, outputs, current, following, standing) & (WORDS <= moved.len());
    let count = prepare(
        file,
        long,
        inputs,
        outputs,
        current,
        following,
        standing,
        counts,
        &mut index,
        &mut indexes,
        &mut components,
    )?;
    let drawn = Drawn {
        file,
        index: &index,
        indexes: &indexes,
    };
    Ok(slow_counts(drawn.round(
        &mut (),
        &components,
        inputs,
        outputs,
        current,
        following,
        standing,
        moved,
        counts_for(counts, count),
        time,
    )))
}

// No wire is kept.
impl<'a> Engine for Drawn<'a> {
    type Kept = ();

    ghost wires = { λ d. [] };

    ghost CanRound = { λ d k T. InRun d.file.now d.index.now d.indexes.now T };

    ghost round_at = { λ d t T. slow_round_of (record_at d.file.now) (record_count d.file.now) t T };

    ghost bits_at = { λ d t T. slow_bits (record_at d.file.now) (record_count d.file.now) t T };

    fn round(
        &self,
        _kept: &mut (),
        components: &[u64],
        inputs: &mut [u64],
        outputs: &mut [u64],
        current: &mut [u16],
        following: &mut [u16],
        standing: &mut [u16],
        moved: &mut [u64],
        counts: Counts,
        time: u64,
    ) -> Counts {
        let drawn = *self;
        round_over(
            &drawn, components, inputs, outputs, current, following, standing, moved, counts, time,
        )
    }
}

// Run until calm, with a time and a limit of rounds: 1, 2, 3 to 15, 20.
pub fn run_until_calm(
    file: &[u8],
    inputs: &mut [u64],
    outputs: &mut [u64],
    current: &mut [u16],
    following: &mut [u16],
    standing: &mut [u16],
    counts: SlowCounts,
    time: u64,
    limit: u16,
) -> Result<Ran<SlowCounts>, Refusal>
    ensures { let before = slow_tables_of inputs.old outputs.old current.old following.old
        standing.old counts in
        let after = slow_tables_of inputs.new outputs.new current.new following.new
        standing.new (slow_counts_after_run result counts) in
        SlowRuns file.now time limit before result after }
{
    let mut index = [0u16; 3072];
    let mut indexes = [0u16; 256];
    let mut components = [0u64; 2048];
    let long = are_full(inputs, outputs, current, following, standing);
    let count = prepare(
        file,
        long,
        inputs,
        outputs,
        current,
        following,
        standing,
        counts,
        &mut index,
        &mut indexes,
        &mut components,
    )?;
    let drawn = Drawn {
        file,
        index: &index,
        indexes: &indexes,
    };
    let mut kept = ();
    let made = run_over(
        &drawn,
        &mut kept,
        &components,
        inputs,
        outputs,
        current,
        following,
        standing,
        counts_for(counts, count),
        time,
        limit,
    );
    Ok(Ran {
        counts: slow_counts(made.counts),
        rounds: made.rounds,
        evaluations: made.evaluations,
        moved: made.moved,
    })
}
