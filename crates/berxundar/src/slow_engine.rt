// The calls of the slow engine, exported to C: each is the function of its name in crate slowly, under the same promise.
ghost use Rattle.std.specs.Prelude.{◌&&◌, ◌||◌};
ghost use Rattle.simulator.specs.Edit.{goes_first, stands};
ghost use Rattle.slow.specs.Slow.{slow_tables_of, SlowEdits, SlowLoads, SlowRuns};
ghost use Rattle.slowly.specs.Slowly.{few_slow, CallSlow, CallSlowRounds, CallSlowRuns};
ghost use Rattle.component.specs.Record.{sized};
ghost use Rattle.words.specs.Said.{short};

// An edit of the component at an index to a plain number: the very next round evaluates it.
#[unsafe(no_mangle)]
pub extern "C" fn berxundar_slow_edit(
    file: &[u8],
    inputs: &mut [u64],
    outputs: &mut [u64],
    current: &mut [u16],
    following: &[u16],
    standing: &[u16],
    counts: &mut [u64],
    index: usize,
    number: u64,
) -> u32
    ensures { let lent = slow_tables_of inputs.old outputs.old current.old following.now standing.now in
        let left = slow_tables_of inputs.new outputs.new current.new following.now standing.now in
        CallSlow (SlowEdits file.now goes_first index number) (few_slow file.now counts.old) counts.old
        counts.new lent left result }
{
    slowly::berxundar_slow_edit(
        file, inputs, outputs, current, following, standing, counts, index, number,
    )
}

// An edit of the component at an index to a plain number: the component stands, and is evaluated no later than the third round after.
#[unsafe(no_mangle)]
pub extern "C" fn berxundar_slow_edit_standing(
    file: &[u8],
    inputs: &mut [u64],
    outputs: &mut [u64],
    current: &[u16],
    following: &[u16],
    standing: &mut [u16],
    counts: &mut [u64],
    index: usize,
    number: u64,
) -> u32
    ensures { let lent = slow_tables_of inputs.old outputs.old current.now following.now standing.old in
        let left = slow_tables_of inputs.new outputs.new current.now following.now standing.new in
        CallSlow (SlowEdits file.now stands index number) (few_slow file.now counts.old) counts.old
        counts.new lent left result }
{
    slowly::berxundar_slow_edit_standing(
        file, inputs, outputs, current, following, standing, counts, index, number,
    )
}

// Loads a drawing file into the five tables.
#[unsafe(no_mangle)]
pub extern "C" fn berxundar_slow_load(
    file: &[u8],
    inputs: &mut [u64],
    outputs: &mut [u64],
    current: &mut [u16],
    following: &mut [u16],
    standing: &mut [u16],
    counts: &mut [u64],
) -> u32
    ensures { let lent = slow_tables_of inputs.old outputs.old current.old following.old standing.old in
        let left = slow_tables_of inputs.new outputs.new current.new following.new standing.new in
        CallSlow (SlowLoads file.now) (few_slow file.now counts.old) counts.old
        counts.new lent left result }
{
    slowly::berxundar_slow_load(file, inputs, outputs, current, following, standing, counts)
}

// A round at a time. A table of 256 words is lent for which outputs changed of each component evaluated.
#[unsafe(no_mangle)]
pub extern "C" fn berxundar_slow_round(
    file: &[u8],
    inputs: &mut [u64],
    outputs: &mut [u64],
    current: &mut [u16],
    following: &mut [u16],
    standing: &mut [u16],
    counts: &mut [u64],
    time: u64,
    moved: &mut [u64],
) -> u32
    ensures { let lent = slow_tables_of inputs.old outputs.old current.old following.old standing.old in
        let left = slow_tables_of inputs.new outputs.new current.new following.new standing.new in
        CallSlowRounds file.now time counts.old counts.new moved.old moved.new lent left result }
{
    slowly::berxundar_slow_round(
        file, inputs, outputs, current, following, standing, counts, time, moved,
    )
}

// Rounds at a time until calm, at most so many. Three words are lent for the rounds run, the evaluations made and how many times an output
// changed.
#[unsafe(no_mangle)]
pub extern "C" fn berxundar_slow_run_until_calm(
    file: &[u8],
    inputs: &mut [u64],
    outputs: &mut [u64],
    current: &mut [u16],
    following: &mut [u16],
    standing: &mut [u16],
    counts: &mut [u64],
    time: u64,
    limit: u16,
    found: &mut [u64],
) -> u32
    ensures { let lent = slow_tables_of inputs.old outputs.old current.old following.old standing.old in
        let left = slow_tables_of inputs.new outputs.new current.new following.new standing.new in
        CallSlowRuns (SlowRuns file.now time limit) (sized file.now && (short counts.old 5 || short found.old 3))
        counts.old counts.new found.old found.new lent left result }
{
    slowly::berxundar_slow_run_until_calm(
        file, inputs, outputs, current, following, standing, counts, time, limit, found,
    )
}
