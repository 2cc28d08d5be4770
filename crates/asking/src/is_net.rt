// Whether tables are a net, called from C.
ghost use Rattle.std.specs.Prelude.{[]};
ghost use Rattle.kinds.specs.Given.{verdict_gives};
ghost use Rattle.tables.specs.Tables.{tables_of};
ghost use Rattle.net.specs.Net.{Checks};
ghost use Rattle.words.specs.Said.{short};
ghost use Rattle.asking.specs.Asking.{CallAsks};

use tables::Lent;
use words::{counts_in, speak};

// What every call on tables checks first: 2, 16.
pub fn berxundar_check(
    components: &[u64],
    inputs: &[u64],
    outputs: &[u64],
    wires: &[u16],
    current: &[u16],
    following: &[u16],
    standing: &[u16],
    counts: &[u64],
) -> u32
    ensures { let lent = tables_of components.now inputs.now outputs.now wires.now
        current.now following.now standing.now in
        CallAsks (λ v. verdict_gives v []) Checks (short counts.now 7) counts.now [] [] lent result }
{
    if counts.len() < 7 {
        return 131072;
    }
    let lent = Lent::new(
        components,
        inputs,
        outputs,
        wires,
        current,
        following,
        standing,
        counts_in(counts),
    );
    match net::check_net(&lent) {
        Ok(()) => 0,
        Err(refusal) => speak(refusal.number),
    }
}
