// Looking at a box: the port values of a composite, named by the path of ids below the root. Rule: docs/SPECIFICATION.md, "Looking at a box".
// Source: flatten.rs, `get_status`. A look changes no table.
#![tactic(auto)]

mod looking;
mod showing;

pub use looking::look;

// How many inputs and outputs a look shows.
#[derive(Clone, Copy)]
pub struct Looked {
    pub inputs: usize,
    pub outputs: usize,
}
