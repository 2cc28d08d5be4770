// Mending a damaged drawing: which records are dropped, and what the others make. Rule: docs/SPECIFICATION.md, "Mending a drawing".
#![tactic(auto)]

mod copying;
mod mending;
mod sifting;

pub use mending::mend;

// How many bytes are written and how many positions are dropped.
#[derive(Clone, Copy)]
pub struct Mended {
    pub bytes: usize,
    pub positions: usize,
}
