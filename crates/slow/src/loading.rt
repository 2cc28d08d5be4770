// A load of the slow engine: the ports and the lists that a load gives the other engine. Rule: docs/SPECIFICATION.md, "The slow engine" and "Rounds" (the
// state at load).
ghost use Rattle.std.specs.Prelude.{◌≡◌, true};
ghost use Rattle.component.specs.Record.{record_at, record_count};
ghost use Rattle.flatten.specs.Verdict.{verdict};
ghost use Rattle.load.specs.Load.{drawing_tables};
ghost use Rattle.slow.specs.declared.SlowCounts.{SlowCounts};
ghost use Rattle.slow.specs.Slow.{slow_tables_of, slow_full, slow_of, drawn, slow_counts_after, SlowLoads};

use crate::SlowCounts;
use crate::preparing::{are_full, judge_lent};
use kinds::Refusal;
use laying::{count_up, lay_components, lay_outputs, lay_standing, zeros};

// Writes the ports and the lists of an accepted drawing: all ports 0, a Const's output its value; standing every Const and Clock, following a copy of
// it; current all components. The answer is how many entries of each table are in use.
fn fill(
    file: &[u8],
    inputs: &mut [u64],
    outputs: &mut [u64],
    current: &mut [u16],
    following: &mut [u16],
    standing: &mut [u16],
) -> SlowCounts
    requires { (verdict file.now ≡ Ok tt) × ((m : SlowCounts)
        → slow_full (slow_tables_of inputs.old outputs.old current.old following.old standing.old m) ≡ true) }
    ensures { (m : SlowCounts) → slow_tables_of inputs.new outputs.new current.new following.new
        standing.new result ≡ slow_of (drawing_tables (record_at file.now) (record_count file.now)
        (drawn (record_at file.now) (record_count file.now) (slow_tables_of inputs.old outputs.old
        current.old following.old standing.old m))) }
{
    let mut components = [0u64; 2048];
    let all = lay_components(file, &mut components);
    zeros(inputs, 0, all.inputs);
    lay_outputs(file, outputs);
    count_up(current, all.components);
    let count = lay_standing(file, standing);
    tables::copy(standing, count, following);
    SlowCounts {
        inputs: all.inputs,
        outputs: all.outputs,
        current: all.components,
        following: count,
        standing: count,
    }
}

// Loads a drawing file into the five tables: 1, 2, then 3 to 15. Counts are not handed in: a load looks at none. A refusal changes no table.
pub fn load(
    file: &[u8],
    inputs: &mut [u64],
    outputs: &mut [u64],
    current: &mut [u16],
    following: &mut [u16],
    standing: &mut [u16],
) -> Result<SlowCounts, Refusal>
    ensures { let before = slow_tables_of inputs.old outputs.old current.old following.old standing.old in
        let after = slow_tables_of inputs.new outputs.new current.new following.new standing.new in
        ((m : SlowCounts) → SlowLoads file.now (before m) result (after (slow_counts_after result m))) }
{
    let mut index = [0u16; 3072];
    let long = are_full(inputs, outputs, current, following, standing);
    judge_lent(file, long, &mut index)?;
    Ok(fill(file, inputs, outputs, current, following, standing))
}
