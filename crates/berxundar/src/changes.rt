// The calls that change a net, exported to C: each is the function of its name in crate changing, under the same promise.
ghost use Rattle.std.specs.Prelude.{◌||◌};
ghost use Rattle.tables.specs.Tables.{tables_of};
ghost use Rattle.simulator.specs.Edit.{goes_first, stands};
ghost use Rattle.simulator.specs.Calls.{Edits, Runs};
ghost use Rattle.words.specs.Said.{short, CallChanges};
ghost use Rattle.changing.specs.Changing.{CallRounds, CallRoundsOrdered, CallRuns};

// An edit of the component at an index to a plain number: the very next round evaluates it.
#[unsafe(no_mangle)]
pub extern "C" fn berxundar_edit(
    components: &[u64],
    inputs: &mut [u64],
    outputs: &mut [u64],
    wires: &[u16],
    current: &mut [u16],
    following: &[u16],
    standing: &[u16],
    counts: &mut [u64],
    index: usize,
    number: u64,
) -> u32
    ensures { let lent = tables_of components.now inputs.old outputs.old wires.now
        current.old following.now standing.now in
        let left = tables_of components.now inputs.new outputs.new wires.now
        current.new following.now standing.now in
        CallChanges (Edits goes_first index number) (short counts.old 7) counts.old counts.new lent left result }
{
    changing::berxundar_edit(
        components, inputs, outputs, wires, current, following, standing, counts, index, number,
    )
}

// An edit of the component at an index to a plain number: the component stands, and is evaluated no later than the third round after.
#[unsafe(no_mangle)]
pub extern "C" fn berxundar_edit_standing(
    components: &[u64],
    inputs: &mut [u64],
    outputs: &mut [u64],
    wires: &[u16],
    current: &[u16],
    following: &[u16],
    standing: &mut [u16],
    counts: &mut [u64],
    index: usize,
    number: u64,
) -> u32
    ensures { let lent = tables_of components.now inputs.old outputs.old wires.now
        current.now following.now standing.old in
        let left = tables_of components.now inputs.new outputs.new wires.now
        current.now following.now standing.new in
        CallChanges (Edits stands index number) (short counts.old 7) counts.old counts.new lent left result }
{
    changing::berxundar_edit_standing(
        components, inputs, outputs, wires, current, following, standing, counts, index, number,
    )
}

// A round at a time. A table of 256 words is lent for which outputs changed of each component evaluated.
#[unsafe(no_mangle)]
pub extern "C" fn berxundar_round(
    components: &[u64],
    inputs: &mut [u64],
    outputs: &mut [u64],
    wires: &[u16],
    current: &mut [u16],
    following: &mut [u16],
    standing: &mut [u16],
    counts: &mut [u64],
    time: u64,
    moved: &mut [u64],
) -> u32
    ensures { let lent = tables_of components.now inputs.old outputs.old wires.now
        current.old following.old standing.old in
        let left = tables_of components.now inputs.new outputs.new wires.now
        current.new following.new standing.new in
        CallRounds time (short counts.old 7) counts.old counts.new moved.old moved.new lent left result }
{
    changing::berxundar_round(
        components, inputs, outputs, wires, current, following, standing, counts, time, moved,
    )
}

// A round at a time in which each component's wires follow an order: its first words, as many as there are wires, name each wire once. A
// table of 1,024 words is lent for the order, and one of 256 words for which outputs changed of each component evaluated.
#[unsafe(no_mangle)]
pub extern "C" fn berxundar_round_ordered(
    components: &[u64],
    inputs: &mut [u64],
    outputs: &mut [u64],
    wires: &[u16],
    current: &mut [u16],
    following: &mut [u16],
    standing: &mut [u16],
    counts: &mut [u64],
    time: u64,
    order: &[u16],
    moved: &mut [u64],
) -> u32
    ensures { let lent = tables_of components.now inputs.old outputs.old wires.now
        current.old following.old standing.old in
        let left = tables_of components.now inputs.new outputs.new wires.now
        current.new following.new standing.new in
        CallRoundsOrdered time order.now (short counts.old 7) counts.old counts.new moved.old
        moved.new lent left result }
{
    changing::berxundar_round_ordered(
        components, inputs, outputs, wires, current, following, standing, counts, time, order,
        moved,
    )
}

// Rounds at a time until calm, at most so many. Three words are lent for the rounds run, the evaluations made and how many times an output
// changed.
#[unsafe(no_mangle)]
pub extern "C" fn berxundar_run_until_calm(
    components: &[u64],
    inputs: &mut [u64],
    outputs: &mut [u64],
    wires: &[u16],
    current: &mut [u16],
    following: &mut [u16],
    standing: &mut [u16],
    counts: &mut [u64],
    time: u64,
    limit: u16,
    found: &mut [u64],
) -> u32
    ensures { let lent = tables_of components.now inputs.old outputs.old wires.now
        current.old following.old standing.old in
        let left = tables_of components.now inputs.new outputs.new wires.now
        current.new following.new standing.new in
        CallRuns (Runs time limit) (short counts.old 7 || short found.old 3) counts.old counts.new
        found.old found.new lent left result }
{
    changing::berxundar_run_until_calm(
        components, inputs, outputs, wires, current, following, standing, counts, time, limit,
        found,
    )
}
