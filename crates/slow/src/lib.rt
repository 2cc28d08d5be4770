// The slow engine: rounds, edits and runs until calm straight from the drawing file, for finding faults. It is lent ports and lists, and keeps
// no wire: each source and each target is worked out through the maps when it is needed. Rule: docs/SPECIFICATION.md, "The slow engine".
#![tactic(auto)]

mod editing;
mod entering;
mod leading;
mod loading;
mod preparing;
mod rounding;

pub use editing::{edit, edit_standing};
pub use loading::load;
pub use rounding::{round, run_until_calm};

// How many entries of each lent table are in use.
#[derive(Clone, Copy)]
pub struct SlowCounts {
    pub inputs: usize,
    pub outputs: usize,
    pub current: usize,
    pub following: usize,
    pub standing: usize,
}
