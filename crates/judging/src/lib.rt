// Satisfied or not: the values of a net are judged at the components that its three lists name, Switches and Clocks aside, and at the wires
// that leave any component named. Rule: docs/SPECIFICATION.md, "Rounds" (satisfied or not). The Rust has nothing of it.
#![tactic(auto)]

mod components;
mod wires;

ghost use Rattle.std.specs.Prelude.{◌≡◌};
ghost use Rattle.net.specs.Net.{net_number};
ghost use Rattle.judging.specs.Judged.{judged_named};

use crate::components::judge_list;
use crate::wires::judge_wires;
use tables::Lent;

// Whether the values of a net are right at what its lists name and at the wires that leave it. Where they name nothing, nothing is judged.
// Crate questions asks it where no check refuses the tables.
pub fn net_satisfied(lent: &Lent) -> bool
    requires { net_number lent.now ≡ 0 }
    ensures { result ≡ judged_named lent.now }
{
    let counts = lent.counts();
    if counts.current + counts.following + counts.standing == 0 {
        return true;
    }
    let components = lent.components();
    let inputs = lent.inputs();
    let outputs = lent.outputs();
    let mut marks = [0u8; 256];
    let mut should = [0u64; 64];
    if !judge_list(
        components,
        inputs,
        outputs,
        lent.current(),
        counts.current,
        &mut marks,
        &mut should,
    ) {
        return false;
    }
    if !judge_list(
        components,
        inputs,
        outputs,
        lent.following(),
        counts.following,
        &mut marks,
        &mut should,
    ) {
        return false;
    }
    if !judge_list(
        components,
        inputs,
        outputs,
        lent.standing(),
        counts.standing,
        &mut marks,
        &mut should,
    ) {
        return false;
    }
    judge_wires(components, inputs, outputs, lent.wires(), counts, &marks)
}
