// Laying the tables of an accepted drawing: components, ports, wires and lists, each by a pass over the records. Rules:
// docs/SPECIFICATION.md, "Flattening" and "Rounds" (the state at load). Source: flatten.rs, `FlattenComponent::new`; simulator.rs,
// `Simulator::new`.
#![tactic(auto)]

mod names;
mod rows;
mod wires;

pub use names::{count_up, index_flat, lay_standing};
pub use rows::{Before, lay_components, lay_outputs, zeros};
pub use wires::{flat_pin, lay_wires};
