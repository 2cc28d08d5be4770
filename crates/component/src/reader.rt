// Reading a record: it is taken apart, or refused with the number 3; and the size of a file, check 1. Rule:
// docs/SPECIFICATION.md, "The drawing file". Where check 3 has passed, `known_at` takes a record apart without asking again.
ghost use Rattle.std.specs.Prelude.{◌≡◌, ◌+◌, ◌*◌, ◌≤◌, ◌<◌, length, eqb};
ghost use Rattle.component.specs.Record.{le16, le32, le64, numbers_in, well_formed, record_at, loose_at, sized};
ghost use Rattle.component.specs.Reading.{record_in, bared, said_by};
ghost use Rattle.component.specs.Record.{fields_of, is_primitive};
ghost use Rattle.component.specs.Reading.{apart, said, number, given, Readable, StandsAs};
ghost use Rattle.component.specs.Drawing.{deepest, fails3};

use crate::{ChildNo, Component, Reading, Record, Says};
use kinds::{Fields, Id, NO_KIND};

fn wide16(x: u8) -> u16
    ensures { (result ≡ x) × (result < 256) }
{
    x as u16
}

fn wide32(x: u16) -> u32
    ensures { (result ≡ x) × (result < 65536) }
{
    x as u32
}

fn wide64(x: u32) -> u64
    ensures { (result ≡ x) × (result < 4294967296) }
{
    x as u64
}

// The number of 16 bits at offset i.
fn half(s: &[u8], i: usize) -> u16
    requires { i + 2 ≤ length s.now }
    ensures { result ≡ le16 s.now i }
{
    wide16(s[i]) + 256 * wide16(s[i + 1])
}

// The number of 32 bits at offset i.
fn word(s: &[u8], i: usize) -> u32
    requires { i + 4 ≤ length s.now }
    ensures { result ≡ le32 s.now i }
{
    wide32(half(s, i)) + 65536 * wide32(half(s, i + 2))
}

// The number of 64 bits at offset i.
fn long(s: &[u8], i: usize) -> u64
    requires { i + 8 ≤ length s.now }
    ensures { result ≡ le64 s.now i }
{
    wide64(word(s, i)) + 4294967296 * wide64(word(s, i + 4))
}

// The nine numbers of the part of the file that starts at 24 times a position, read from offset 0.
fn numbers(part: &[u8]) -> Record
    requires { length part.now ≡ 24 }
    ensures { result ≡ numbers_in part.now }
{
    Record {
        form: part[0],
        kind: part[1],
        owner: half(part, 2),
        a: half(part, 4),
        b: half(part, 6),
        c: half(part, 8),
        d: half(part, 10),
        id: word(part, 12),
        parameter: long(part, 16),
    }
}

// Not 3: D is 0 in kind 1; in kinds 2 to 4 byte 1, id and parameter are 0, B in kind 3, C and D in kind 4.
fn is_well_formed(r: Record) -> bool
    ensures { result ≡ well_formed r }
{
    let bare = (r.kind == 0) & (r.id == 0) & (r.parameter == 0);
    ((r.form == 1) & (r.d == 0))
        | ((r.form == 2) & bare)
        | ((r.form == 3) & bare & (r.b == 0))
        | ((r.form == 4) & bare & (r.c == 0) & (r.d == 0))
}

// What a record says by its record kind; of a kind past 3 it is what an output map says.
fn take(r: Record) -> Says
    ensures { apart r.owner result ≡ bared r }
{
    let form = r.form;
    match form {
        1 => Says::Component {
            id: Id(r.id),
            fields: Fields {
                kind: r.kind,
                inputs: r.a,
                outputs: r.b,
                width: r.c,
                parameter: r.parameter,
            },
        },
        2 => Says::Connection {
            from: ChildNo(r.a),
            output: r.b,
            to: ChildNo(r.c),
            input: r.d,
        },
        3 => Says::InputMap {
            port: r.a,
            to: ChildNo(r.c),
            input: r.d,
        },
        _ => Says::OutputMap {
            from: ChildNo(r.a),
            output: r.b,
        },
    }
}

// A record taken apart, or refused at once.
fn read(r: Record) -> Reading
    ensures { (said result ≡ record_in r) × (number result ≡ given 3 (eqb (record_in r).form 0)) }
{
    if !is_well_formed(r) {
        return Reading::Refused(3);
    }
    Reading::Taken {
        owner: r.owner,
        says: take(r),
    }
}

// The record at a position of the file; refused past its end.
pub fn record_at(file: &[u8], p: usize) -> Reading
    ensures { (said result ≡ record_at file.now p) × (number result ≡ given 3 (fails3 (record_at file.now) p)) }
{
    if p < file.len() / 24 {
        let a = 24 * p;
        let e = a + 24;
        return read(numbers(&file[a..e]));
    }
    Reading::Refused(3)
}

// The same of a file in which check 3 refuses no record: the record kind alone says how it is taken apart. Whoever looks at a field of it
// reads no other. Crates index, checks, flatten, laying and slow call it.
pub fn known_at(file: &[u8], p: usize) -> Reading
    requires { Readable file.now }
    ensures { said result ≡ record_at file.now p }
{
    if p < file.len() / 24 {
        let a = 24 * p;
        let e = a + 24;
        let r = numbers(&file[a..e]);
        return Reading::Taken {
            owner: r.owner,
            says: take(r),
        };
    }
    Reading::Refused(3)
}

// What stands at a position of the file by its record kind alone, whatever check 3 says of it; refused past the file's end, and where the kind is none.
pub fn loose_at(file: &[u8], p: usize) -> Reading
    ensures { said result ≡ said_by (loose_at file.now p) }
{
    if p < file.len() / 24 {
        let a = 24 * p;
        let e = a + 24;
        let r = numbers(&file[a..e]);
        if (r.form == 0) | (4 < r.form) {
            return Reading::Refused(3);
        }
        return Reading::Taken {
            owner: r.owner,
            says: take(r),
        };
    }
    Reading::Refused(3)
}

// The component at a position of the file, if there is one. Check 3 has passed. Crates index, checks, laying and boxes call it.
pub fn component_at(file: &[u8], p: usize) -> Option<Component>
    requires { Readable file.now }
    ensures { StandsAs result (record_at file.now p) }
{
    let Reading::Taken { owner, says } = known_at(file, p) else {
        return None;
    };
    let Says::Component { id, fields } = says else {
        return None;
    };
    Some(Component { owner, id, fields })
}

// The fields of the component at a position of the file; those of no component where none stands there. Check 3 has passed. Crates checks,
// flatten, boxes and look call it.
pub fn fields_at(file: &[u8], p: usize) -> Fields
    requires { Readable file.now }
    ensures { result ≡ fields_of (record_at file.now p) }
{
    let Some(Component { fields, .. }) = component_at(file, p) else {
        return Fields {
            kind: NO_KIND,
            inputs: 0,
            outputs: 0,
            width: 0,
            parameter: 0,
        };
    };
    fields
}

// Whether a primitive, a component of a kind other than the composite's, stands at a position of the file. Check 3 has passed. Crates
// flatten and laying call it.
pub fn is_primitive_at(file: &[u8], p: usize) -> bool
    requires { Readable file.now }
    ensures { result ≡ is_primitive (record_at file.now p) }
{
    kinds::is_primitive(fields_at(file, p))
}

// The greatest depth, the root's being 1.
pub fn deepest() -> u8
    ensures { result ≡ deepest }
{
    16
}

// Not 1: the file is not empty, a multiple of 24, and of at most 1,024 records.
pub fn is_sized(file: &[u8]) -> bool
    ensures { result ≡ sized file.now }
{
    let length = file.len();
    (length != 0) & (length % 24 == 0) & (length / 24 <= 1024)
}

// The number of a check that fails, else 0. No crate here calls it: each check of a record answers the test itself. It is for callers who want the
// number that is given back.
pub fn given(number: u32, fails: bool) -> u32
    ensures { result ≡ given number fails }
{
    if fails {
        return number;
    }
    0
}
