// Loading a drawing into lent tables. Rules: docs/SPECIFICATION.md, "Flattening" and "Rounds" (the state at load).
// Source: flatten.rs, `FlattenComponent::new`; simulator.rs, `Simulator::new`.
#![tactic(auto)]

ghost use Rattle.std.specs.Prelude.{◌≡◌, ◌≤◌, length};
ghost use Rattle.component.specs.Record.{record_at, record_count};
ghost use Rattle.index.specs.Index.{IsIndex};
ghost use Rattle.flatten.specs.Verdict.{verdict};
ghost use Rattle.tables.specs.declared.Counts.{Counts};
ghost use Rattle.tables.specs.Tables.{tables_of, counts_after};
ghost use Rattle.load.specs.Load.{drawing_tables, load_verdict, Loads};

use kinds::{Refusal, refused_by};
use laying::{count_up, lay_components, lay_outputs, lay_standing, lay_wires, zeros};
use tables::{Counts, Lent};

// What stands for the counts where none are handed in and none are looked at.
const NO_ENTRIES: Counts = Counts {
    components: 0,
    inputs: 0,
    outputs: 0,
    wires: 0,
    current: 0,
    following: 0,
    standing: 0,
};

// Writes the tables of an accepted drawing, with its index filled: all ports 0, a Const's output its value; standing every Const and Clock, following a copy
// of it; current all components. The answer is how many entries of each table are in use.
fn fill(
    file: &[u8],
    index: &[u16],
    components: &mut [u64],
    inputs: &mut [u64],
    outputs: &mut [u64],
    wires: &mut [u16],
    current: &mut [u16],
    following: &mut [u16],
    standing: &mut [u16],
) -> Counts
    requires index { IsIndex file.now index.now }
    requires file_value { (verdict file.now ≡ Ok tt) × (2048 ≤ length components.old) × (1024 ≤ length inputs.old) × (1024 ≤ length outputs.old)
        × (4096 ≤ length wires.old) × (256 ≤ length current.old) × (256 ≤ length following.old) × (256 ≤ length standing.old) }
    ensures { tables_of components.new inputs.new outputs.new wires.new current.new
        following.new standing.new result ≡ drawing_tables (record_at file.now) (record_count file.now)
        (tables_of components.old inputs.old outputs.old wires.old current.old
        following.old standing.old result) }
{
    let all = lay_components(file, components);
    zeros(inputs, 0, all.inputs);
    lay_outputs(file, outputs);
    let wire_count = lay_wires(file, index, wires);
    count_up(current, all.components);
    let standing_count = lay_standing(file, standing);
    tables::copy(standing, standing_count, following);
    Counts {
        components: all.components,
        inputs: all.inputs,
        outputs: all.outputs,
        wires: wire_count,
        current: all.components,
        following: standing_count,
        standing: standing_count,
    }
}

// The verdict of a load: check 1, check 2, then the checks 3 to 15; the lent index, of 3,072 words, is filled where it is accepted. `load`
// calls it, and crate look, whose refusals begin with a load's.
pub fn judge_load(file: &[u8], lent: &Lent, index: &mut [u16]) -> Result<(), Refusal>
    requires { length index.old ≡ 3072 }
    ensures value { result ≡ load_verdict file.now lent.now }
    ensures index { result ≡ Ok tt → IsIndex file.now index.new }
{
    if !component::is_sized(file) {
        return Err(refused_by(1));
    }
    if !lent.full_size() {
        return Err(refused_by(2));
    }
    meeting::judge_indexed(file, index)
}

// Loads a drawing file into the tables: judges the load, and writes the tables of an accepted drawing. Counts are not handed in: a
// load looks at none. A refusal changes no table.
pub fn load(
    file: &[u8],
    components: &mut [u64],
    inputs: &mut [u64],
    outputs: &mut [u64],
    wires: &mut [u16],
    current: &mut [u16],
    following: &mut [u16],
    standing: &mut [u16],
) -> Result<Counts, Refusal>
    ensures { let before = tables_of components.old inputs.old outputs.old wires.old
        current.old following.old standing.old in
        let after = tables_of components.new inputs.new outputs.new wires.new
        current.new following.new standing.new in
        ((m : Counts) → Loads file.now (before m) result (after (counts_after result m))) }
{
    let mut index = [0u16; 3072];
    let lent = Lent::new(
        components, inputs, outputs, wires, current, following, standing, NO_ENTRIES,
    );
    judge_load(file, &lent, &mut index)?;
    Ok(fill(
        file, &index, components, inputs, outputs, wires, current, following, standing,
    ))
}
