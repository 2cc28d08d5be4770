// The checks 3 to 14. Those of one record by itself answer whether the record fails; those that look at earlier records too go over all of
// them, with what they have to know of the earlier ones carried along. Rule: docs/SPECIFICATION.md, "Numbers given back".
#![tactic(auto)]

mod passes;

ghost use Rattle.std.specs.Prelude.{◌≡◌, false, cond, ◌&&◌, ◌||◌, ◌⊎◌, ◌≤◌, ◌<◌, eqb, leb, ltb};
ghost use Rattle.lists.specs.Lists.{from, any};
ghost use Rattle.component.specs.Record.{record_at, record_count};
ghost use Rattle.component.specs.Reading.{form_by, said, Readable};
ghost use Rattle.index.specs.Index.{IsIndex};
ghost use Rattle.component.specs.Record.{inputs_of, outputs_of, is_primitive, composite};
ghost use Rattle.component.specs.Reading.{has_id, enters};
ghost use Rattle.checks.specs.Checks.{EntryAs};
ghost use Rattle.component.specs.Drawing.{deepest, holds, deeper};
ghost use Rattle.component.specs.Drawing.{fails3, fails4, fails5, fails6, fails7, fails8, fails9};
ghost use Rattle.component.specs.Drawing.{fails12, fails14, earlier_of};

use component::{
    ChildNo, Component, Reading, Says, component_at, deepest, fields_at, known_at, record_at,
};
use index::{child_of, out_map_count};
use kinds::{Id, Kind, number_of};
pub use passes::{first10, first11, first13, place_mark};

// 3: the record is not taken apart. Crate flatten calls it, and each of the other checks of one record, over all records of a file, in number order.
pub fn check3(file: &[u8], p: usize) -> bool
    ensures { result ≡ fails3 (record_at file.now) p }
{
    let Reading::Refused(_) = record_at(file, p) else {
        return false;
    };
    true
}

// Whether the record kind falls, or the owner among equal kinds 2 to 4.
fn falls(here: Says, owner: u16, before: Says, was: u16) -> bool
    ensures { result ≡ (ltb (form_by here) (form_by before) || (eqb (form_by here) (form_by before) && leb 2 (form_by before) && ltb owner was)) }
{
    match here {
        Says::Component { .. } => match before {
            Says::Component { .. } => false,
            _ => true,
        },
        Says::Connection { .. } => match before {
            Says::Component { .. } => false,
            Says::Connection { .. } => owner < was,
            _ => true,
        },
        Says::InputMap { .. } => match before {
            Says::InputMap { .. } => owner < was,
            Says::OutputMap { .. } => true,
            _ => false,
        },
        Says::OutputMap { .. } => match before {
            Says::OutputMap { .. } => owner < was,
            _ => false,
        },
    }
}

// 4: kinds do not fall, nor owners among equal kinds 2 to 4; the first record is of kind 1. Check 3 has passed. Crate flatten calls it.
pub fn check4(file: &[u8], p: usize) -> bool
    requires { Readable file.now × (fails3 (record_at file.now) p ≡ false) }
    ensures { result ≡ fails4 (record_at file.now) p }
{
    if p == 0 {
        return component_at(file, 0).is_none();
    }
    let Reading::Taken { owner, says } = known_at(file, p) else {
        return false;
    };
    let Reading::Taken {
        owner: was,
        says: before,
    } = known_at(file, p - 1)
    else {
        return false;
    };
    falls(says, owner, before, was)
}

// Whether composite o holds component q, at most f owners up.
fn holds(file: &[u8], f: usize, o: usize, q: usize) -> bool
    requires { Readable file.now }
    ensures { result ≡ holds (record_at file.now) f o q }
{
    let mut inner = q;
    for _ in 0..f {
        if inner == 0 {
            return false;
        }
        let Some(Component { owner, .. }) = component_at(file, inner) else {
            return false;
        };
        let outer = owner as usize;
        if outer == o {
            return true;
        }
        inner = outer;
    }
    false
}

// Whether a composite stands at a position of the file. Check 3 has passed. `check5` calls it, and crate mend.
pub fn is_composite_at(file: &[u8], p: usize) -> bool
    requires { Readable file.now }
    ensures { result ≡ composite (record_at file.now p) }
{
    fields_at(file, p).kind == number_of(Kind::Composite)
}

// 5: the root's owner is 0; any other is a composite, a component's one that is the component before or holds it. Check 3 has passed.
// Crate flatten calls it.
pub fn check5(file: &[u8], p: usize) -> bool
    requires { Readable file.now × (fails3 (record_at file.now) p ≡ false) }
    ensures { result ≡ fails5 (record_at file.now) p }
{
    let Reading::Taken { owner, says } = known_at(file, p) else {
        return false;
    };
    let o = owner as usize;
    if p == 0 {
        return o != 0;
    }
    if !is_composite_at(file, o) {
        return true;
    }
    let Says::Component { .. } = says else {
        return false;
    };
    if o == p - 1 {
        return false;
    }
    !holds(file, p - 1, o, p - 1)
}

// Whether the depth of component p is over d.
fn deeper(file: &[u8], d: u8, p: usize) -> bool
    requires { Readable file.now }
    ensures { result ≡ deeper (record_at file.now) d p }
{
    let mut inner = p;
    for _ in 0..d {
        if inner == 0 {
            return false;
        }
        let Some(Component { owner, .. }) = component_at(file, inner) else {
            return false;
        };
        inner = owner as usize;
    }
    true
}

// 6: component number 256 or more, or too deep. Crate flatten calls it where check 3 has passed, as it does the next three.
pub fn check6(file: &[u8], p: usize) -> bool
    requires { Readable file.now }
    ensures { result ≡ fails6 (record_at file.now) p }
{
    let Some(_) = component_at(file, p) else {
        return false;
    };
    if 256 <= p {
        return true;
    }
    deeper(file, deepest(), p)
}

// 7: the kind is the one kept for Custom. Crate flatten calls it likewise.
pub fn check7(file: &[u8], p: usize) -> bool
    requires { Readable file.now }
    ensures { result ≡ fails7 (record_at file.now) p }
{
    let Some(Component { fields, .. }) = component_at(file, p) else {
        return false;
    };
    kinds::is_kept(fields.kind)
}

// 8: the kind is none. Crate flatten calls it likewise.
pub fn check8(file: &[u8], p: usize) -> bool
    requires { Readable file.now }
    ensures { result ≡ fails8 (record_at file.now) p }
{
    let Some(Component { fields, .. }) = component_at(file, p) else {
        return false;
    };
    kinds::is_unknown(fields.kind)
}

// 9: the component breaks the table of kinds. Crate flatten calls it likewise.
pub fn check9(file: &[u8], p: usize) -> bool
    requires { Readable file.now }
    ensures { result ≡ fails9 (record_at file.now) p }
{
    let Some(Component { fields, .. }) = component_at(file, p) else {
        return false;
    };
    !kinds::obeys(fields)
}

// Whether a component at a position of the file has the id.
fn has_id(file: &[u8], q: usize, id: Id) -> bool
    requires { Readable file.now }
    ensures { result ≡ has_id id.0 (record_at file.now q) }
{
    let Some(Component { id: other, .. }) = component_at(file, q) else {
        return false;
    };
    other.0 == id.0
}

// Whether a component before p has the id.
fn id_before(file: &[u8], p: usize, id: Id) -> bool
    requires { Readable file.now }
    ensures { result ≡ any (λ q. has_id id.0 (record_at file.now q)) (from 0 p) }
{
    (0..p).any(|q| has_id(file, q, id))
}

// The inputs and the outputs of some primitives.
#[derive(Clone, Copy)]
struct Ports {
    inputs: usize,
    outputs: usize,
}

// Those of the primitive at a position; none where no primitive stands there.
fn ports_at(file: &[u8], q: usize) -> Ports
    requires { Readable file.now }
    ensures { (result.inputs ≡ cond (is_primitive (record_at file.now q)) (inputs_of (record_at file.now q)) 0) ×
        (result.inputs ≤ 65535) × (result.outputs ≡ cond (is_primitive (record_at file.now q)) (outputs_of (record_at file.now q)) 0) ×
        (result.outputs ≤ 65535) }
{
    let Some(Component { fields, .. }) = component_at(file, q) else {
        return Ports {
            inputs: 0,
            outputs: 0,
        };
    };
    if !kinds::is_primitive(fields) {
        return Ports {
            inputs: 0,
            outputs: 0,
        };
    }
    Ports {
        inputs: fields.inputs as usize,
        outputs: fields.outputs as usize,
    }
}

// Whether component c has an input i. Check 3 has passed. Crate mend calls it too, and the next.
pub fn has_input(file: &[u8], c: usize, i: u16) -> bool
    requires { Readable file.now }
    ensures { result ≡ ltb i (inputs_of (record_at file.now c)) }
{
    let Some(Component { fields, .. }) = component_at(file, c) else {
        return false;
    };
    i < fields.inputs
}

// Whether component c has an output i. Crate mend calls it likewise.
pub fn has_output(file: &[u8], c: usize, i: u16) -> bool
    requires { Readable file.now }
    ensures { result ≡ ltb i (outputs_of (record_at file.now c)) }
{
    let Some(Component { fields, .. }) = component_at(file, c) else {
        return false;
    };
    i < fields.outputs
}

// 12: a child or port in kinds 2 to 4 does not exist. Crate flatten calls it with the index filled.
pub fn check12(file: &[u8], index: &[u16], p: usize) -> bool
    requires { IsIndex file.now index.now }
    ensures { result ≡ fails12 (record_at file.now) (record_count file.now) p }
{
    let Reading::Taken { owner, says } = known_at(file, p) else {
        return false;
    };
    let o = owner as usize;
    match says {
        Says::Component { .. } => false,
        Says::Connection {
            from,
            output,
            to,
            input,
        } => {
            let from_there = has_output(file, child_of(file, index, o, from), output);
            let to_there = has_input(file, child_of(file, index, o, to), input);
            !(from_there & to_there)
        }
        Says::InputMap { port, to, input } => {
            let to_there = has_input(file, child_of(file, index, o, to), input);
            !(has_input(file, o, port) & to_there)
        }
        Says::OutputMap { from, output } => {
            let from_there = has_output(file, child_of(file, index, o, from), output);
            !from_there
        }
    }
}

// A child's input that a record enters.
#[derive(Clone, Copy, PartialEq, Eq)]
pub struct Entry {
    pub owner: u16,
    pub to: ChildNo,
    pub input: u16,
}

// The child's input that a record enters, if it enters one. Crate mend calls it too.
pub fn entry_of(r: Reading) -> Option<Entry>
    ensures { EntryAs result (said r) }
{
    let Reading::Taken { owner, says } = r else {
        return None;
    };
    match says {
        Says::Component { .. } => None,
        Says::Connection { to, input, .. } => Some(Entry { owner, to, input }),
        Says::InputMap { to, input, .. } => Some(Entry { owner, to, input }),
        Says::OutputMap { .. } => None,
    }
}

// The one that the record at a position enters, also of a file that check 3 has not been asked of.
fn entry_at(file: &[u8], p: usize) -> Option<Entry>
    ensures { EntryAs result (record_at file.now p) }
{
    entry_of(record_at(file, p))
}

// Whether the record at q enters the input of an entry.
fn same_entry(file: &[u8], q: usize, entry: Entry) -> bool
    ensures { result ≡ enters entry.owner entry.to.0 entry.input (record_at file.now q) }
{
    let Some(other) = entry_at(file, q) else {
        return false;
    };
    other == entry
}

// The first record that enters the child's input which the record at p enters, as an earlier one of two that meet; p where there is none.
pub fn earlier_of(file: &[u8], p: usize) -> usize
    ensures { result ≡ earlier_of (record_at file.now) p }
{
    let Some(entry) = entry_at(file, p) else {
        return p;
    };
    for q in 0..p {
        if same_entry(file, q, entry) {
            return q;
        }
    }
    p
}

// 14: a composite's output maps differ in number from its outputs. Check 6 has passed, so that the index has a word of it. Crate
// flatten calls it with the index filled.
pub fn check14(file: &[u8], index: &[u16], p: usize) -> bool
    requires { IsIndex file.now index.now × (fails6 (record_at file.now) p ≡ false) }
    ensures { result ≡ fails14 (record_at file.now) (record_count file.now) p }
{
    let Some(Component { fields, .. }) = component_at(file, p) else {
        return false;
    };
    if fields.kind != number_of(Kind::Composite) {
        return false;
    }
    fields.outputs as usize != out_map_count(index, p)
}
