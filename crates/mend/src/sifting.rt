// Which records are kept. Rule: docs/SPECIFICATION.md, "Mending a drawing". What an input was entered by is marked, as with check 13: the mark is
// the record's position and 1, a guess at the record to ask first.
ghost use Rattle.std.specs.Prelude.{◌≡◌, true, not, ◌&&◌, ◌||◌, ◌+◌, ◌≤◌, ◌<◌, length, get_or};
ghost use Rattle.lists.specs.Lists.{from, any};
ghost use Rattle.lists.specs.Marks.{IsMarked};
ghost use Rattle.component.specs.Record.{record_at, loose_at, record_count, composite, entering};
ghost use Rattle.component.specs.Reading.{owner_of, apart, said, enters};
ghost use Rattle.component.specs.Drawing.{missing};
ghost use Rattle.index.specs.Index.{IsIndex};
ghost use Rattle.mend.specs.Sifting.{parts_of, marked_kept, drops_plainly, IsSifted, kept_entry, kept_mark};

use checks::{Entry, entry_of, has_input, has_output, is_composite_at, place_mark};
use component::{Reading, Says, loose_at};
use index::child_of;

// Check 12 of what a record says, of the components that stand in `parts`: whether a child or port that it names does not exist. `check12` of crate
// checks asks the same of a record of the file that has the components.
fn is_missing(parts: &[u8], index: &[u16], owner: u16, says: Says) -> bool
    requires { IsIndex parts.now index.now }
    ensures { result ≡ missing (record_at parts.now) (record_count parts.now) (apart owner says) }
{
    let o = owner as usize;
    match says {
        Says::Component { .. } => false,
        Says::Connection {
            from,
            output,
            to,
            input,
        } => {
            let from_there = has_output(parts, child_of(parts, index, o, from), output);
            let to_there = has_input(parts, child_of(parts, index, o, to), input);
            !(from_there & to_there)
        }
        Says::InputMap { port, to, input } => {
            let to_there = has_input(parts, child_of(parts, index, o, to), input);
            !(has_input(parts, o, port) & to_there)
        }
        Says::OutputMap { from, output } => {
            let from_there = has_output(parts, child_of(parts, index, o, from), output);
            !from_there
        }
    }
}

// Whether check 12 refuses a connection or an input map, of the components that stand in `parts`.
fn refuses12(parts: &[u8], index: &[u16], r: Reading) -> bool
    requires { IsIndex parts.now index.now }
    ensures { entering (said r) ≡ true → result ≡ (not (composite (record_at parts.now (owner_of (said r))))
        || missing (record_at parts.now) (record_count parts.now) (said r)) }
{
    let Reading::Taken { owner, says } = r else {
        return false;
    };
    !is_composite_at(parts, owner as usize) | is_missing(parts, index, owner, says)
}

// Whether the record at q is kept and enters an input of a child.
fn kept_enters(file: &[u8], kept: &[u8], q: usize, entry: Entry) -> bool
    requires { q < length kept.now }
    ensures { result ≡ (marked_kept kept.now q && enters entry.owner entry.to.0 entry.input (loose_at file.now q)) }
{
    (kept[q] != 0) & (entry_of(loose_at(file, q)) == Some(entry))
}

// Whether a kept record before p enters an input of a child: the one that is guessed, or any.
fn entered_before(file: &[u8], kept: &[u8], p: usize, guess: usize, entry: Entry) -> bool
    requires { p ≤ length kept.now }
    ensures { result ≡ any (λ q. marked_kept kept.now q && enters entry.owner entry.to.0 entry.input (loose_at file.now q)) (from 0 p) }
{
    if guess < p {
        if kept_enters(file, kept, guess, entry) {
            return true;
        }
    }
    (0..p).any(|q| kept_enters(file, kept, q, entry))
}

// The mark at a place: 0 where it is not set.
fn mark_at(marks: &[u16], place: usize) -> usize
    requires { place < length marks.now }
    ensures { result ≡ get_or marks.now place 0 }
{
    marks[place] as usize
}

// Whether the record at p is kept, those before it being sifted: a connection or an input map that check 12 refuses is not, nor one whose input
// an earlier kept one has entered. What it enters is marked where it is kept.
fn is_kept(
    file: &[u8],
    parts: &[u8],
    index: &[u16],
    kept: &[u8],
    marks: &mut [u16],
    p: usize,
) -> bool
    requires { (parts.now ≡ parts_of file.now) × IsIndex parts.now index.now × IsSifted file.now p kept.now × (p < 1024)
        × IsMarked 16384 (kept_entry file.now) (kept_mark file.now) 0 p marks.old }
    ensures value { result ≡ not (drops_plainly (loose_at file.now) (record_count file.now) p) }
    ensures marked { IsMarked 16384 (kept_entry file.now) (kept_mark file.now) 0 (p + 1) marks.new }
{
    let reading = loose_at(file, p);
    let refused = refuses12(parts, index, reading);
    let Some(entry) = entry_of(reading) else {
        return true; // no connection and no input map
    };
    if refused {
        return false;
    }
    let place = place_mark(parts, index, entry.owner, entry.to, entry.input);
    let mark = mark_at(marks, place);
    if mark != 0 {
        if entered_before(file, kept, p, mark - 1, entry) {
            return false;
        }
    }
    marks[place] = (p + 1) as u16;
    true
}

// Marks the records that are kept, `parts` being the component records as a file of their own.
pub(crate) fn sift(file: &[u8], parts: &[u8], kept: &mut [u8])
    requires { (parts.now ≡ parts_of file.now) × (record_count file.now ≤ 1024) × (length kept.old ≡ 1024) }
    ensures { IsSifted file.now (record_count file.now) kept.new }
{
    let mut index = [0u16; 3072];
    index::fill_index(parts, &mut index);
    let mut marks = [0u16; 16384];
    for p in 0..file.len() / 24 {
        let stays = is_kept(file, parts, &index, kept, &mut marks, p);
        kept[p] = stays as u8;
    }
}
