// A load, called from C.
ghost use Rattle.std.specs.Prelude.{◌&&◌};
ghost use Rattle.component.specs.Record.{sized};
ghost use Rattle.tables.specs.Tables.{tables_of};
ghost use Rattle.load.specs.Load.{Loads};
ghost use Rattle.words.specs.Said.{short, CallChanges};

use words::keep_loaded;

// Loads a drawing file into the tables.
pub fn berxundar_load(
    file: &[u8],
    components: &mut [u64],
    inputs: &mut [u64],
    outputs: &mut [u64],
    wires: &mut [u16],
    current: &mut [u16],
    following: &mut [u16],
    standing: &mut [u16],
    counts: &mut [u64],
) -> u32
    ensures { let lent = tables_of components.old inputs.old outputs.old wires.old
        current.old following.old standing.old in
        let left = tables_of components.new inputs.new outputs.new wires.new
        current.new following.new standing.new in
        CallChanges (Loads file.now) (sized file.now && short counts.old 7) counts.old
        counts.new lent left result }
{
    if !component::is_sized(file) {
        return 65536;
    }
    if counts.len() < 7 {
        return 131072;
    }
    let answer = load::load(
        file, components, inputs, outputs, wires, current, following, standing,
    );
    keep_loaded(counts, answer)
}
