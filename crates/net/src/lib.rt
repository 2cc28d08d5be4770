// Whether lent tables are a net, in a pass over the components, one over the wires and one over each list. Rule: docs/SPECIFICATION.md,
// "Numbers given back", 16. What a clause asks of one component or wire has a function of its own, whose `requires` says how it rests on
// clauses before it.
#![tactic(auto)]

mod ids;
mod limits;
mod naming;
mod rows;
mod values;
mod whole;
mod wires;

pub use naming::names;
pub use values::{row_fits, row_held};
pub use whole::check_net;
