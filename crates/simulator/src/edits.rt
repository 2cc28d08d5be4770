// What edits of both ways share: their checks, and the port that is set, a Switch's output or the input of an Input that no wire enters.
// Rule: docs/SPECIFICATION.md, "Rounds" and "Numbers given back". The Rust has none.
ghost use Rattle.std.specs.Prelude.{◌≡◌, true, ◌<◌, length};
ghost use Rattle.kinds.specs.declared.Kind.TheVariants.{Switch};
ghost use Rattle.kinds.specs.Kinds.{is};
ghost use Rattle.kinds.specs.Given.{refusing};
ghost use Rattle.tables.specs.Tables.{tables_of};
ghost use Rattle.tables.specs.Words.{RowInside, WiresInside, fields_fit, fields_in, first_input_in, first_output_in};
ghost use Rattle.simulator.specs.Calls.{after, edit_number};
ghost use Rattle.simulator.specs.Asked.{entered, edit_refusal, inputs_set, outputs_set};

use kinds::{Kind, Refusal, refused_by};
use net::check_net;
use tables::{Counts, Lent};
use value::Value;

// Whether one of the first `count` wires enters component i.
fn is_driven(wires: &[u16], count: usize, i: usize) -> bool
    requires { WiresInside wires.now count }
    ensures { result ≡ entered wires.now count i }
{
    for k in 0..count {
        let wire = tables::wire_at(wires, k);
        if wire.dst.comp.0 == i {
            return true;
        }
    }
    false
}

// What an edit checks of a net of `count` components: 17 where there is no component i; 18 where it is neither a Switch nor an Input that
// no wire has entered; 19 where its value does not fit the port that is set. Crates simulator and slow call it.
pub fn check_port(
    components: &[u64],
    count: usize,
    entered: bool,
    i: usize,
    number: u64,
) -> Result<(), Refusal>
    requires { i < count → RowInside components.now i × (fields_fit (fields_in components.now i) ≡ true) }
    ensures { result ≡ refusing (edit_refusal components.now count entered i number) }
{
    if count <= i {
        return Err(refused_by(17));
    }
    let switch = tables::is_kind(components, i, Kind::Switch);
    let input = tables::is_kind(components, i, Kind::Input);
    if !(switch | (input & !entered)) {
        return Err(refused_by(18));
    }
    let f = tables::fields_at(components, i);
    let width = if switch {
        kinds::output_width(f)
    } else {
        kinds::input_width(f)
    };
    let set = Value { number, width };
    if !set.fits().fits {
        return Err(refused_by(19));
    }
    Ok(())
}

// Sets the output of a Switch, and of any other component the first input. Crates simulator and slow call it where no check refuses.
pub fn set_port(components: &[u64], inputs: &mut [u64], outputs: &mut [u64], i: usize, number: u64)
    requires { RowInside components.now i
        × (is Switch (fields_in components.now i) ≡ true → first_output_in components.now i < length outputs.old)
        × ((is Switch (fields_in components.now i) ≡ true → ⊥) → first_input_in components.now i < length inputs.old) }
    ensures { (inputs.new ≡ inputs_set components.now i number inputs.old)
        × (outputs.new ≡ outputs_set components.now i number outputs.old) }
{
    if tables::is_kind(components, i, Kind::Switch) {
        let at = tables::first_output(components, i);
        outputs[at] = number;
    } else {
        let at = tables::first_input(components, i);
        inputs[at] = number;
    }
}

// What an edit checks, on any tables: 2 and 16, then the rest.
fn check_edit(lent: &Lent, i: usize, number: u64) -> Result<(), Refusal>
    ensures { result ≡ refusing (edit_number lent.now i number) }
{
    check_net(lent)?;
    let counts = lent.counts();
    let entered = is_driven(lent.wires(), counts.wires, i);
    check_port(lent.components(), counts.components, entered, i, number)
}

// Makes the checks of an edit, on any tables, and sets the port where none refuses.
pub(crate) fn set_or_refuse(
    components: &[u64],
    inputs: &mut [u64],
    outputs: &mut [u64],
    wires: &[u16],
    current: &[u16],
    following: &[u16],
    standing: &[u16],
    counts: Counts,
    i: usize,
    number: u64,
) -> Result<(), Refusal>
    ensures { let k = edit_number (tables_of components.now inputs.old outputs.old wires.now
        current.now following.now standing.now counts) i number in
        (result ≡ refusing k)
        × (inputs.new ≡ after k (inputs_set components.now i number inputs.old) inputs.old)
        × (outputs.new ≡ after k (outputs_set components.now i number outputs.old) outputs.old) }
{
    let lent = Lent::new(
        components, inputs, outputs, wires, current, following, standing, counts,
    );
    check_edit(&lent, i, number)?;
    set_port(components, inputs, outputs, i, number);
    Ok(())
}
