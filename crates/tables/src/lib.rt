// The lent tables, their layout and counts, and the lists in them. Rules: docs/SPECIFICATION.md, "Numbers given back".
// Components are 8 words each, wires 4, ports and the entries of lists 1; an index of a component is a 16-bit number.
#![tactic(auto)]

mod lent;
mod named;
mod rows;
mod wires;
mod words;

pub use lent::Lent;
pub use named::{append_new, copy, strike};
pub use rows::{
    fields_at, fields_fit, first_input, first_output, has_id, id_word, input_count, is_kind,
    kind_word, lay_row, output_count, parameter_word,
};
pub use wires::{lay_wire, wire_at};
pub use words::{entry, word};

// The place of a component in the table of components.
#[derive(Clone, Copy)]
pub struct FlatIdx(pub usize);

// A port of a component of the net.
#[derive(Clone, Copy)]
pub struct End {
    pub comp: FlatIdx,
    pub port: u16,
}

// A wire of the net, from an output to an input.
#[derive(Clone, Copy)]
pub struct Wire {
    pub src: End,
    pub dst: End,
}

// How many entries of each lent table are in use.
#[derive(Clone, Copy)]
pub struct Counts {
    pub components: usize,
    pub inputs: usize,
    pub outputs: usize,
    pub wires: usize,
    pub current: usize,
    pub following: usize,
    pub standing: usize,
}
