// All clauses of a net, and the numbers 2 and 16.
ghost use Rattle.std.specs.Prelude.{◌≡◌, true};
ghost use Rattle.tables.specs.Tables.{full_size};
ghost use Rattle.net.specs.Net.{is_circuit, is_net, Checks};

use crate::limits::counts_within;
use crate::naming::names;
use crate::rows::rows_right;
use crate::wires::wires_right;
use kinds::{Refusal, refused_by};
use tables::Lent;

// Whether components, ports and wires of tables of full size are those of a net: a pass over the components, and one over the wires, which
// rests on it.
fn is_circuit(lent: &Lent) -> bool
    requires { full_size lent.now ≡ true }
    ensures { result ≡ is_circuit lent.now }
{
    let counts = lent.counts();
    if !counts_within(counts) {
        return false;
    }
    let components = lent.components();
    let mut entering = [0u8; 256];
    let mut leaving = [0u8; 256];
    if !rows_right(
        components,
        lent.inputs(),
        lent.outputs(),
        counts,
        &mut entering,
        &mut leaving,
    ) {
        return false;
    }
    wires_right(components, lent.wires(), counts, &entering, &leaving)
}

// Whether tables of full size are a net.
fn is_net(lent: &Lent) -> bool
    requires { full_size lent.now ≡ true }
    ensures { result ≡ is_net lent.now }
{
    if !is_circuit(lent) {
        return false;
    }
    let counts = lent.counts();
    names(lent.current(), counts.current, counts)
        & names(lent.following(), counts.following, counts)
        & names(lent.standing(), counts.standing, counts)
}

// What every call on tables checks first, on any tables and counts: 2 where a table is shorter than full size, 16 where
// the tables are not a net.
pub fn check_net(lent: &Lent) -> Result<(), Refusal>
    ensures { Checks lent.now result }
{
    if !lent.full_size() {
        return Err(refused_by(2));
    }
    if !is_net(lent) {
        return Err(refused_by(16));
    }
    Ok(())
}
