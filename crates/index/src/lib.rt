// An index of a file's records, filled once the checks before it have passed: where child k of a component stands, and output map i of a
// composite, how many output maps it has, and between which records its input maps stand. Rule: docs/SPECIFICATION.md, "The drawing file".
// It is small: it does not have the child k of each owner, but a guess, which counts if the record says so itself, being of that owner and
// with k children of that owner before it; else the records are searched one by one. So nothing has to be known of the guesses.
//   words 0 to 511        of each of 256 components how many of its owner's children stand before it; of each of 256 owners its children
//   words 512 to 1791     of each of 1,024 records how many of its owner's output maps stand before it; of each of 256 owners its output maps
//   words 1792 to 2303    the input maps of composite c stand from word 1792 + c to before word 2048 + c
//   words 2304 to 2815    guesses: the children, owner by owner; where those of each owner start
//   words 2816 to 3071    guesses: the first output map of each owner
#![tactic(auto)]

ghost use Rattle.std.specs.Prelude.{◌≡◌, true, ℕ, ◌+◌, ◌≤◌, ◌<◌, length, get_or, eqb};
ghost use Rattle.component.specs.Record.{record_at, record_count};
ghost use Rattle.component.specs.Reading.{said, form_by, Readable};
ghost use Rattle.index.specs.Index.{nth_owned, numbered, widen_low, widen_high};
ghost use Rattle.component.specs.Record.{owned_as};
ghost use Rattle.index.specs.Index.{IsClear, IsNumbered, IsRange, IsIndex, KeptBelow, stretch_first, stretch_end, out_count};
ghost use Rattle.component.specs.Drawing.{child, out_map};

use component::{ChildNo, Component, Reading, Says, component_at, known_at};

// The positions from `first` to before `end`.
#[derive(Clone, Copy)]
pub struct Stretch {
    pub first: usize,
    pub end: usize,
}

// Whether a record is of a record kind.
fn is_of(says: Says, form: u8) -> bool
    ensures { result ≡ eqb (form_by says) form }
{
    match says {
        Says::Component { .. } => 1 == form,
        Says::Connection { .. } => 2 == form,
        Says::InputMap { .. } => 3 == form,
        Says::OutputMap { .. } => 4 == form,
    }
}

// Whether the record at q is of a kind and of an owner.
fn is_owned(file: &[u8], q: usize, form: u8, o: usize) -> bool
    requires { Readable file.now × (1 ≤ form) }
    ensures { result ≡ owned_as form o (record_at file.now q) }
{
    let Reading::Taken { owner, says } = known_at(file, q) else {
        return false;
    };
    is_of(says, form) & (owner as usize == o)
}

// The kth record of a kind and an owner, from position `first` on; n where there is none.
fn nth_owned(file: &[u8], n: usize, form: u8, first: usize, o: usize, k: usize) -> usize
    requires { Readable file.now × (1 ≤ form) }
    ensures { result ≡ nth_owned file.now n form first o k }
{
    let mut left = k;
    for q in first..n {
        if is_owned(file, q, form, o) {
            if left == 0 {
                return q;
            }
            left -= 1;
        }
    }
    n
}

// Writes x into every word of a table.
fn clear(table: &mut [u16], x: u16)
    ensures { IsClear x table.old table.new }
{
    table.fill(x);
}

// Counts a record of the kind, where the table has a word for its owner: its own word, of the first w, is how many were before it.
fn number(table: &mut [u16], w: usize, form: u8, r: Reading, q: usize)
    requires { (length table.old ≡ w + 256) × (w ≤ 1024) × (1 ≤ form) × ((o : ℕ) → get_or table.old (w + o) 0 ≤ 1024) }
    ensures { table.new ≡ numbered w form (said r) q table.old }
{
    let Reading::Taken { owner, says } = r else {
        return;
    };
    if !is_of(says, form) {
        return;
    }
    let o = owner as usize;
    if 256 <= o {
        return;
    }
    let k = table[w + o];
    table[w + o] = k + 1;
    if q < w {
        table[q] = k;
    }
}

// Fills a table with the numbers of the records of a kind from position `first` on, w words for records and 256 for owners.
fn fill_numbers(file: &[u8], n: usize, form: u8, first: usize, w: usize, table: &mut [u16])
    requires { Readable file.now × (n ≤ 1024) × (w ≤ 1024) × (1 ≤ form) × (length table.old ≡ w + 256) }
    ensures { IsNumbered file.now n w form first table.new }
{
    clear(table, 0);
    for q in first..n {
        number(table, w, form, known_at(file, q), q);
    }
}

// Widens the stretch of an input map's owner to its position.
fn widen(ends: &mut [u16], r: Reading, q: u16)
    requires { (length ends.old ≡ 512) × (q < 1024) }
    ensures { ends.new ≡ widen_low (said r) q (widen_high (said r) q ends.old) }
{
    let Reading::Taken { owner, says } = r else {
        return;
    };
    let Says::InputMap { .. } = says else {
        return;
    };
    let c = owner as usize;
    if 256 <= c {
        return;
    }
    ends[256 + c] = q + 1;
    if q < ends[c] {
        ends[c] = q;
    }
}

// Fills the part of the stretches.
fn fill_ends(file: &[u8], n: usize, ends: &mut [u16])
    requires { Readable file.now × (n ≤ 1024) × (length ends.old ≡ 512) }
    ensures { IsRange file.now n ends.new }
{
    clear(&mut ends[0..256], n as u16);
    clear(&mut ends[256..512], 0);
    for q in 0..n {
        widen(ends, known_at(file, q), q as u16);
    }
}

// A word of the index.
fn word(index: &[u16], at: usize) -> usize
    requires { at < length index.now }
    ensures { (result ≡ get_or index.now at 0) × (result < 65536) }
{
    index[at] as usize
}

// Guesses where the children of each owner start: behind those of the owners before, which are among n records.
fn guess_starts(index: &mut [u16], n: usize)
    requires { length index.old ≡ 3072 }
    ensures { KeptBelow 2304 index.old index.new }
{
    let mut sum: usize = 0;
    for o in 0..n.min(256) {
        if 256 <= sum {
            return;
        }
        index[2560 + o] = sum as u16;
        sum += word(index, 256 + o);
    }
}

// Guesses that the component at q stands among its owner's children behind those before it.
fn guess_child(index: &mut [u16], q: usize, owner: u16)
    requires { (length index.old ≡ 3072) × (q < 256) }
    ensures { KeptBelow 2304 index.old index.new }
{
    let o = owner as usize;
    if 256 <= o {
        return;
    }
    let at = word(index, 2560 + o) + word(index, q);
    if at < 256 {
        index[2304 + at] = q as u16;
    }
}

// Guesses the children of all owners.
fn guess_children(file: &[u8], index: &mut [u16])
    requires { Readable file.now × (length index.old ≡ 3072) }
    ensures { KeptBelow 2304 index.old index.new }
{
    guess_starts(index, file.len() / 24);
    for q in 1..256 {
        let Some(Component { owner, .. }) = component_at(file, q) else {
            return;
        };
        guess_child(index, q, owner);
    }
}

// Guesses that the output map at q, if none of its owner stands before it, is its owner's first.
fn guess_map(index: &mut [u16], q: usize, owner: u16)
    requires { (length index.old ≡ 3072) × (q < 1024) }
    ensures { KeptBelow 2304 index.old index.new }
{
    let o = owner as usize;
    if 256 <= o {
        return;
    }
    if index[512 + q] == 0 {
        index[2816 + o] = q as u16;
    }
}

// Guesses the first output map of each owner: an owner's stand together, and all stand last.
fn guess_maps(file: &[u8], n: usize, index: &mut [u16])
    requires { Readable file.now × (n ≤ 1024) × (length index.old ≡ 3072) }
    ensures { KeptBelow 2304 index.old index.new }
{
    for q in (0..n).rev() {
        let Reading::Taken { owner, says } = known_at(file, q) else {
            return;
        };
        let Says::OutputMap { .. } = says else {
            return;
        };
        guess_map(index, q, owner);
    }
}

// Fills the index. Crate flatten calls it for a file of at most 1,024 records that the checks before have passed, and crate mend for the
// components of one; both with room for the index.
pub fn fill_index(file: &[u8], index: &mut [u16])
    requires { Readable file.now × (record_count file.now ≤ 1024) × (length index.old ≡ 3072) }
    ensures { IsIndex file.now index.new }
{
    let n = file.len() / 24;
    fill_numbers(file, n, 1, 1, 256, &mut index[0..512]);
    fill_numbers(file, n, 4, 0, 1024, &mut index[512..1792]);
    fill_ends(file, n, &mut index[1792..2304]);
    guess_children(file, index);
    guess_maps(file, n, index);
}

// Whether the record at c is child k of owner o: a component other than the root, of that owner, with k of its children before it.
fn is_child(file: &[u8], index: &[u16], c: usize, o: usize, k: u16) -> bool
    requires { IsIndex file.now index.now × (o < 256) }
    ensures { result ≡ true → c ≡ child (record_at file.now) (record_count file.now) o k }
{
    if c == 0 {
        return false;
    }
    if 256 <= c {
        return false;
    }
    is_owned(file, c, 1, o) & (index[c] == k)
}

// Child k of owner o; the number of records where there is none, which the index knows of each of its owners. Crates checks, flatten, laying, mend
// and slow call it with the index filled.
pub fn child_of(file: &[u8], index: &[u16], o: usize, k: ChildNo) -> usize
    requires { IsIndex file.now index.now }
    ensures { result ≡ child (record_at file.now) (record_count file.now) o k.0 }
{
    let place = k.0 as usize;
    if o < 256 {
        let at = word(index, 2560 + o) + place;
        if at < 256 {
            let c = word(index, 2304 + at);
            if is_child(file, index, c, o, k.0) {
                return c;
            }
        }
        if word(index, 256 + o) <= place {
            return file.len() / 24;
        }
    }
    nth_owned(file, file.len() / 24, 1, 1, o, place)
}

// Whether the record at q maps output i of composite c: an output map of it, with i of its output maps before it.
fn is_out_map(file: &[u8], index: &[u16], q: usize, c: usize, i: u16) -> bool
    requires { IsIndex file.now index.now × (c < 256) }
    ensures { result ≡ true → q ≡ out_map (record_at file.now) (record_count file.now) c i }
{
    if 1024 <= q {
        return false;
    }
    is_owned(file, q, 4, c) & (index[512 + q] == i)
}

// The record that maps output i of composite c; the number of records where there is none. Crate flatten calls it likewise.
pub fn out_map_of(file: &[u8], index: &[u16], c: usize, i: u16) -> usize
    requires { IsIndex file.now index.now }
    ensures { result ≡ out_map (record_at file.now) (record_count file.now) c i }
{
    let place = i as usize;
    if c < 256 {
        let q = word(index, 2816 + c) + place;
        if is_out_map(file, index, q, c, i) {
            return q;
        }
    }
    nth_owned(file, file.len() / 24, 4, 0, c, place)
}

// How many output maps composite c has. Crate checks calls it with the index filled, of a component that the index has words for.
pub fn out_map_count(index: &[u16], c: usize) -> usize
    requires { (length index.now ≡ 3072) × (c < 256) }
    ensures { result ≡ out_count index.now c }
{
    word(index, 1536 + c)
}

// The positions at which the input maps of composite c stand, of n records: those of the index, and all where it has no word of c.
// Crate flatten calls it likewise.
pub fn stretch_of(index: &[u16], n: usize, c: usize) -> Stretch
    requires { length index.now ≡ 3072 }
    ensures { (result.first ≡ stretch_first index.now c) × (result.end ≡ stretch_end index.now n c) }
{
    if c < 256 {
        return Stretch {
            first: word(index, 1792 + c),
            end: word(index, 2048 + c),
        };
    }
    Stretch { first: 0, end: n }
}
