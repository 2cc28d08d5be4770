// The calls on a file and on one component, exported to C: each is the function of its name in crate host, under the same promise.
ghost use Rattle.std.specs.Prelude.{◌&&◌, ◌||◌};
ghost use Rattle.host.specs.Host.{fields_from, CallEvaluates, CallLooks, CallMends};
ghost use Rattle.flatten.specs.Verdict.{Speaks};
ghost use Rattle.meeting.specs.Meeting.{SpeaksPair};
ghost use Rattle.component.specs.Record.{sized};
ghost use Rattle.tables.specs.Tables.{tables_of};
ghost use Rattle.load.specs.Load.{Loads};
ghost use Rattle.words.specs.Said.{short, CallChanges};
ghost use Rattle.look.specs.Look.{Looks};

// Evaluates a component of these fields: its inputs' numbers and their widths, its outputs' numbers, which are written, and their
// widths, and the time. A word is lent for which of its outputs changed.
#[unsafe(no_mangle)]
pub extern "C" fn berxundar_evaluate(
    kind: u8,
    ins: u16,
    outs: u16,
    width: u16,
    parameter: u64,
    inputs: &[u64],
    entering: &[u64],
    outputs: &mut [u64],
    leaving: &[u64],
    time: u64,
    found: &mut [u64],
) -> u32
    ensures { CallEvaluates (fields_from kind ins outs width parameter) inputs.now entering.now outputs.old
        leaving.now time found.old result outputs.new found.new }
{
    host::berxundar_evaluate(
        kind, ins, outs, width, parameter, inputs, entering, outputs, leaving, time, found,
    )
}

// Judges a file's bytes: number times 65,536 plus position, check 2 not made; 13 for any two records that meet.
#[unsafe(no_mangle)]
pub extern "C" fn berxundar_judge(file: &[u8]) -> u32
    ensures { Speaks file.now result }
{
    host::berxundar_judge(file)
}

// Judges a file's bytes: number times 2^32 plus position times 65,536 plus the earlier record of two that meet.
#[unsafe(no_mangle)]
pub extern "C" fn berxundar_judge_pair(file: &[u8]) -> u64
    ensures { SpeaksPair file.now result }
{
    host::berxundar_judge_pair(file)
}

// Loads a drawing file into the tables.
#[unsafe(no_mangle)]
pub extern "C" fn berxundar_load(
    file: &[u8],
    components: &mut [u64],
    inputs: &mut [u64],
    outputs: &mut [u64],
    wires: &mut [u16],
    current: &mut [u16],
    following: &mut [u16],
    standing: &mut [u16],
    counts: &mut [u64],
) -> u32
    ensures { let lent = tables_of components.old inputs.old outputs.old wires.old
        current.old following.old standing.old in
        let left = tables_of components.new inputs.new outputs.new wires.new
        current.new following.new standing.new in
        CallChanges (Loads file.now) (sized file.now && short counts.old 7) counts.old
        counts.new lent left result }
{
    host::berxundar_load(
        file, components, inputs, outputs, wires, current, following, standing, counts,
    )
}

// Looks at the component that a path of ids names, from the root's children down: numbers and widths of its ports, into two lists of 256,
// inputs first; how many inputs and outputs they are, into two lent words.
#[unsafe(no_mangle)]
pub extern "C" fn berxundar_look(
    file: &[u8],
    components: &[u64],
    inputs: &[u64],
    outputs: &[u64],
    wires: &[u16],
    current: &[u16],
    following: &[u16],
    standing: &[u16],
    counts: &[u64],
    path: &[u32],
    numbers: &mut [u64],
    widths: &mut [u64],
    found: &mut [u64],
) -> u32
    ensures { let lent = tables_of components.now inputs.now outputs.now wires.now
        current.now following.now standing.now in
        CallLooks (λ T. Looks file.now T path.now)
        (sized file.now && (short counts.now 7 || short found.old 2)) counts.now
        numbers.old numbers.new widths.old widths.new found.old found.new lent result }
{
    host::berxundar_look(
        file, components, inputs, outputs, wires, current, following, standing, counts, path,
        numbers, widths, found,
    )
}

// Mends a damaged drawing into a buffer as long as the file; the positions of what was dropped, into a list of 1,025; how many bytes and how many
// positions they are, into two lent words.
#[unsafe(no_mangle)]
pub extern "C" fn berxundar_mend(
    file: &[u8],
    mended: &mut [u8],
    dropped: &mut [u16],
    found: &mut [u64],
) -> u32
    ensures { CallMends file.now mended.old mended.new dropped.old dropped.new
        found.old found.new result }
{
    host::berxundar_mend(file, mended, dropped, found)
}
