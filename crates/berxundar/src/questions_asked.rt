// The questions, exported to C: each is the function of its name in crate asking, under the same promise.
ghost use Rattle.std.specs.Prelude.{◌||◌, []};
ghost use Rattle.tables.specs.Tables.{tables_of};
ghost use Rattle.questions.specs.Questions.{whether_gives, AsksCalm, index_gives, AsksIndex, value_gives, AsksValue, AsksSatisfied, AsksSources, AsksTargets};
ghost use Rattle.words.specs.Said.{short};
ghost use Rattle.asking.specs.Asking.{CallAsks, CallLists};
ghost use Rattle.kinds.specs.Given.{verdict_gives};
ghost use Rattle.net.specs.Net.{Checks};
ghost use Rattle.words.specs.Words.{side_of};

// Whether all three lists name only Clocks: a word is lent for the answer, 1 or 0.
#[unsafe(no_mangle)]
pub extern "C" fn berxundar_calm(
    components: &[u64],
    inputs: &[u64],
    outputs: &[u64],
    wires: &[u16],
    current: &[u16],
    following: &[u16],
    standing: &[u16],
    counts: &[u64],
    found: &mut [u64],
) -> u32
    ensures { let lent = tables_of components.now inputs.now outputs.now wires.now
        current.now following.now standing.now in
        CallAsks whether_gives AsksCalm (short counts.now 7 || short found.old 1) counts.now found.old
        found.new
        lent result }
{
    asking::berxundar_calm(
        components, inputs, outputs, wires, current, following, standing, counts, found,
    )
}

// The index of the component with an id, into a lent word.
#[unsafe(no_mangle)]
pub extern "C" fn berxundar_index(
    components: &[u64],
    inputs: &[u64],
    outputs: &[u64],
    wires: &[u16],
    current: &[u16],
    following: &[u16],
    standing: &[u16],
    counts: &[u64],
    id: u32,
    found: &mut [u64],
) -> u32
    ensures { let lent = tables_of components.now inputs.now outputs.now wires.now
        current.now following.now standing.now in
        CallAsks index_gives (λ T. AsksIndex T id) (short counts.now 7 || short found.old 1) counts.now
        found.old found.new
        lent result }
{
    asking::berxundar_index(
        components, inputs, outputs, wires, current, following, standing, counts, id, found,
    )
}

// What every call on tables checks first: 2, 16.
#[unsafe(no_mangle)]
pub extern "C" fn berxundar_check(
    components: &[u64],
    inputs: &[u64],
    outputs: &[u64],
    wires: &[u16],
    current: &[u16],
    following: &[u16],
    standing: &[u16],
    counts: &[u64],
) -> u32
    ensures { let lent = tables_of components.now inputs.now outputs.now wires.now
        current.now following.now standing.now in
        CallAsks (λ v. verdict_gives v []) Checks (short counts.now 7) counts.now [] [] lent result }
{
    asking::berxundar_check(
        components, inputs, outputs, wires, current, following, standing, counts,
    )
}

// The value of a port: its number and its width, into two lent words. Side 0 is the component's inputs, any other its outputs.
#[unsafe(no_mangle)]
pub extern "C" fn berxundar_value(
    components: &[u64],
    inputs: &[u64],
    outputs: &[u64],
    wires: &[u16],
    current: &[u16],
    following: &[u16],
    standing: &[u16],
    counts: &[u64],
    side: u32,
    index: usize,
    port: usize,
    found: &mut [u64],
) -> u32
    ensures { let lent = tables_of components.now inputs.now outputs.now wires.now
        current.now following.now standing.now in
        CallAsks value_gives (λ T. AsksValue T (side_of side) index port) (short counts.now 7 || short found.old 2)
        counts.now found.old found.new
        lent result }
{
    asking::berxundar_value(
        components, inputs, outputs, wires, current, following, standing, counts, side, index,
        port, found,
    )
}

// Whether the values are right at the components that the lists name and at the wires that leave them: a word is lent for the answer, 1 or 0.
#[unsafe(no_mangle)]
pub extern "C" fn berxundar_satisfied(
    components: &[u64],
    inputs: &[u64],
    outputs: &[u64],
    wires: &[u16],
    current: &[u16],
    following: &[u16],
    standing: &[u16],
    counts: &[u64],
    found: &mut [u64],
) -> u32
    ensures { let lent = tables_of components.now inputs.now outputs.now wires.now
        current.now following.now standing.now in
        CallAsks whether_gives AsksSatisfied (short counts.now 7 || short found.old 1) counts.now found.old
        found.new
        lent result }
{
    asking::berxundar_satisfied(
        components, inputs, outputs, wires, current, following, standing, counts, found,
    )
}

// The sources of the component at an index, into a list of 256; how many they are, into a lent word.
#[unsafe(no_mangle)]
pub extern "C" fn berxundar_sources(
    components: &[u64],
    inputs: &[u64],
    outputs: &[u64],
    wires: &[u16],
    current: &[u16],
    following: &[u16],
    standing: &[u16],
    counts: &[u64],
    index: usize,
    list: &mut [u16],
    found: &mut [u64],
) -> u32
    ensures { let lent = tables_of components.now inputs.now outputs.now wires.now
        current.now following.now standing.now in
        CallLists (λ T. AsksSources T index) (short counts.now 7 || short found.old 1) counts.now
        list.old list.new
        found.old found.new lent result }
{
    asking::berxundar_sources(
        components, inputs, outputs, wires, current, following, standing, counts, index, list,
        found,
    )
}

// The targets of the component at an index, into a list of 256; how many they are, into a lent word.
#[unsafe(no_mangle)]
pub extern "C" fn berxundar_targets(
    components: &[u64],
    inputs: &[u64],
    outputs: &[u64],
    wires: &[u16],
    current: &[u16],
    following: &[u16],
    standing: &[u16],
    counts: &[u64],
    index: usize,
    list: &mut [u16],
    found: &mut [u64],
) -> u32
    ensures { let lent = tables_of components.now inputs.now outputs.now wires.now
        current.now following.now standing.now in
        CallLists (λ T. AsksTargets T index) (short counts.now 7 || short found.old 1) counts.now
        list.old list.new
        found.old found.new lent result }
{
    asking::berxundar_targets(
        components, inputs, outputs, wires, current, following, standing, counts, index, list,
        found,
    )
}
