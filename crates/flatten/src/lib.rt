// Flattening a drawing. Rules: docs/SPECIFICATION.md, "Flattening" and "Numbers given back". Source: flatten.rs.
#![tactic(auto)]

mod descent;
mod judgement;
mod targets;
mod widths;

pub use descent::{list_targets, source_from, source_of, targets_from};
pub use judgement::{verdict, verdict_indexed};
pub use targets::target_at;

// A port of a component of a drawing, by the component's number.
#[derive(Clone, Copy)]
pub struct Pin {
    pub comp: usize,
    pub port: u16,
}

// From an output to an input that it leads to.
#[derive(Clone, Copy)]
pub struct Lead {
    pub src: Pin,
    pub dst: Pin,
}
