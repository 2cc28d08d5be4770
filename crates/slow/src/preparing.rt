// The checks of the slow engine's calls: a load's own, then 20. Rule: docs/SPECIFICATION.md, "The slow engine".
ghost use Rattle.std.specs.Prelude.{◌≡◌, true, ◌&&◌, ℕ, ◌<◌, length, replicate, eqb, leb};
ghost use Rattle.lists.specs.Lists.{from, every};
ghost use Rattle.component.specs.Record.{record_at, record_count};
ghost use Rattle.index.specs.Index.{IsIndex};
ghost use Rattle.tables.specs.Words.{RowInside};
ghost use Rattle.net.specs.Parts.{InputsInside, OutputsInside, obeyed_at, values_fit_at, held_at};
ghost use Rattle.slow.specs.declared.SlowCounts.{SlowCounts};
ghost use Rattle.slow.specs.Slow.{slow_tables_of, slow_full, slow_number, slow_verdict, counts_for};
ghost use Rattle.slow.specs.Sending.{prepared_verdict, IsPrepared};

use crate::SlowCounts;
use kinds::{Refusal, refused_by};
use laying::{Before, index_flat, lay_components};
use net::{names, row_fits, row_held};
use tables::Counts;

// Full size: the most entries of a table of ports, and of a list.
const PORTS: usize = 1024;

const NAMES: usize = 256;

// Whether no table is shorter than full size.
pub(crate) fn are_full(
    inputs: &[u64],
    outputs: &[u64],
    current: &[u16],
    following: &[u16],
    standing: &[u16],
) -> bool
    ensures { (m : SlowCounts) → result ≡ slow_full (slow_tables_of inputs.now outputs.now current.now
        following.now standing.now m) }
{
    (PORTS <= inputs.len())
        & (PORTS <= outputs.len())
        & (NAMES <= current.len())
        & (NAMES <= following.len())
        & (NAMES <= standing.len())
}

// A load's own verdict: 1, 2 unless all that is lent is long enough, 3 to 15; the lent index, of 3,072 words, is filled where it accepts.
pub(crate) fn judge_lent(file: &[u8], long: bool, index: &mut [u16]) -> Result<(), Refusal>
    requires { length index.old ≡ 3072 }
    ensures value { result ≡ slow_verdict file.now long 0 }
    ensures index { result ≡ Ok tt → IsIndex file.now index.new }
{
    if !component::is_sized(file) {
        return Err(refused_by(1));
    }
    if !long {
        return Err(refused_by(2));
    }
    meeting::judge_indexed(file, index)
}

// The other engine's counts: so many components, and no wire.
pub(crate) fn counts_for(counts: SlowCounts, components: usize) -> Counts
    ensures { result ≡ counts_for counts components }
{
    Counts {
        components,
        inputs: counts.inputs,
        outputs: counts.outputs,
        wires: 0,
        current: counts.current,
        following: counts.following,
        standing: counts.standing,
    }
}

// Whether "its ports are the file's", by their counts, and no list has more than 256 entries.
fn counts_match(counts: SlowCounts, all: Before) -> bool
    ensures { result ≡ (eqb counts.inputs all.inputs && eqb counts.outputs all.outputs && leb counts.current 256
        && leb counts.following 256 && leb counts.standing 256) }
{
    (counts.inputs == all.inputs)
        & (counts.outputs == all.outputs)
        & (counts.current <= NAMES)
        & (counts.following <= NAMES)
        & (counts.standing <= NAMES)
}

// Whether the values of the first `count` components fit.
fn values_fit(components: &[u64], inputs: &[u64], outputs: &[u64], count: usize) -> bool
    requires { (i : ℕ) → i < count → RowInside components.now i × (obeyed_at components.now i ≡ true)
        × InputsInside components.now inputs.now i × OutputsInside components.now outputs.now i }
    ensures { result ≡ every (values_fit_at components.now inputs.now outputs.now) (from 0 count) }
{
    for i in 0..count {
        let f = tables::fields_at(components, i);
        let inward = kinds::input_width(f);
        let outward = kinds::output_width(f);
        if !row_fits(components, inputs, outputs, inward, outward, i) {
            return false;
        }
    }
    true
}

// Whether each Const among the first `count` components holds its value.
fn consts_held(components: &[u64], outputs: &[u64], count: usize) -> bool
    requires { (i : ℕ) → i < count → RowInside components.now i × (obeyed_at components.now i ≡ true)
        × OutputsInside components.now outputs.now i }
    ensures { result ≡ every (held_at components.now outputs.now) (from 0 count) }
{
    for i in 0..count {
        if !row_held(components, outputs, i) {
            return false;
        }
    }
    true
}

// What a call on tables begins with: a load's own verdict, then 20. Where neither refuses, the lent index, the flat indexes and the words of the
// components are those of the file, and the answer is how many components there are.
pub(crate) fn prepare(
    file: &[u8],
    long: bool,
    inputs: &[u64],
    outputs: &[u64],
    current: &[u16],
    following: &[u16],
    standing: &[u16],
    counts: SlowCounts,
    index: &mut [u16],
    indexes: &mut [u16],
    components: &mut [u64],
) -> Result<usize, Refusal>
    requires index_len { (length index.old ≡ 3072) × (length indexes.old ≡ 256) × (components.old ≡ replicate 2048 0) }
    requires counts_value { long ≡ true → slow_full (slow_tables_of inputs.now outputs.now current.now following.now standing.now counts) ≡ true }
    ensures { let lent = slow_tables_of inputs.now outputs.now current.now following.now standing.now counts in
        (prepared_verdict result ≡ slow_verdict file.now long (slow_number (record_at file.now) (record_count file.now) lent))
        × ((k : ℕ) → result ≡ Ok k
        → IsPrepared file.now index.new indexes.new components.new k lent) }
{
    if let Err(refusal) = judge_lent(file, long, index) {
        return Err(refusal);
    }
    let all = lay_components(file, components);
    let count = all.components;
    if !counts_match(counts, all) {
        return Err(refused_by(20));
    }
    if !values_fit(components, inputs, outputs, count) {
        return Err(refused_by(20));
    }
    if !consts_held(components, outputs, count) {
        return Err(refused_by(20));
    }
    let flat = counts_for(counts, count);
    if !(names(current, counts.current, flat)
        & names(following, counts.following, flat)
        & names(standing, counts.standing, flat))
    {
        return Err(refused_by(20));
    }
    index_flat(file, indexes);
    Ok(count)
}
