// The records of a drawing file. Rules: docs/SPECIFICATION.md, "The drawing file" and "Numbers given back". Source:
// component.rs.
#![tactic(auto)]

mod reader;

use kinds::{Fields, Id};
pub use reader::{
    component_at, deepest, fields_at, given, is_primitive_at, is_sized, known_at, loose_at,
    record_at,
};

// A child, counted below one owner.
#[derive(Clone, Copy, PartialEq, Eq)]
pub struct ChildNo(pub u16);

// A record as the file has it: its nine numbers.
#[derive(Clone, Copy)]
pub struct Record {
    pub form: u8,
    pub kind: u8,
    pub owner: u16,
    pub a: u16,
    pub b: u16,
    pub c: u16,
    pub d: u16,
    pub id: u32,
    pub parameter: u64,
}

// What a record says of its owner.
#[derive(Clone, Copy)]
pub enum Says {
    Component {
        id: Id,
        fields: Fields,
    },
    Connection {
        from: ChildNo,
        output: u16,
        to: ChildNo,
        input: u16,
    },
    InputMap {
        port: u16,
        to: ChildNo,
        input: u16,
    },
    OutputMap {
        from: ChildNo,
        output: u16,
    },
}

// What reading a record answers: the record taken apart, or the number that refuses it. It is an enum of its own because
// docs/SPECIFICATION.md, "Expected form in each place", names that form: reading a record answers an enum, and callers use `let .. else`.
#[derive(Clone, Copy)]
pub enum Reading {
    Taken { owner: u16, says: Says },
    Refused(u32),
}

// The component at a position.
#[derive(Clone, Copy)]
pub struct Component {
    pub owner: u16,
    pub id: Id,
    pub fields: Fields,
}
