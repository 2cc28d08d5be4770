// Evaluating a component. Rules: docs/SPECIFICATION.md, "The drawing file" and "Rounds". Source: primitive.rs.
#![tactic(auto)]

mod remainder;
mod rules;
mod single;

pub use rules::update;
pub use single::evaluate;
