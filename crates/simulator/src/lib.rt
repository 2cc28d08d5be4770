// Rounds, in stored order or in one that is handed in, edits and runs until calm as calls over lent tables. Rules:
// docs/SPECIFICATION.md, "Rounds" and "Numbers given back". Source: simulator.rs.
#![tactic(auto)]

mod calls;
mod edits;
mod first;
mod moved;
mod ordered;
mod runs;
mod standing;

pub use calls::{round, run_until_calm};
pub use edits::{check_port, set_port};
pub use first::edit;
pub use moved::count_moved;
pub use ordered::round_ordered;
pub use runs::{Engine, run_over};
pub use standing::edit_standing;

// What a run comes to: the new counts, of the tables or of the slow engine's, the rounds run, the evaluations made and how many times an output changed.
#[derive(Clone, Copy)]
pub struct Ran<C> {
    pub counts: C,
    pub rounds: u16,
    pub evaluations: u32,
    pub moved: u32,
}
