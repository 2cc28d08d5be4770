// The checks 10, 11 and 13, each over all records at once, with what it has to know of the earlier records carried along: which ids and which
// inputs may have been met before, by marks, and the ports so far. Rule: docs/SPECIFICATION.md, "Numbers given back".
ghost use Rattle.std.specs.Prelude.{◌≡◌, false, ◌+◌, ◌<◌};
ghost use Rattle.lists.specs.Marks.{IsMarked};
ghost use Rattle.component.specs.Record.{record_at, record_count};
ghost use Rattle.component.specs.Reading.{Readable};
ghost use Rattle.component.specs.Drawing.{is_component, fails10, fails11, fails13};
ghost use Rattle.index.specs.Index.{IsIndex};
ghost use Rattle.checks.specs.Checks.{IsFirst, id_mark, is_entry, place_mark, entry_mark};

use crate::{Entry, earlier_of, entry_of, id_before, ports_at};
use component::{ChildNo, Component, component_at, known_at};
use index::child_of;

// 10 of the record at p, where the ids of the components before it are marked: an id whose mark is not set is none of theirs, and one whose
// mark is set is searched for. An id that is new is marked.
fn id_again(file: &[u8], marks: &mut [u8; 4096], p: usize) -> bool
    requires { Readable file.now × IsMarked 4096 (is_component (record_at file.now)) (id_mark (record_at file.now)) 0 p marks.old }
    ensures value { result ≡ fails10 (record_at file.now) p }
    ensures marked { result ≡ false → IsMarked 4096 (is_component (record_at file.now)) (id_mark (record_at file.now)) 0 (p + 1)
        marks.new }
{
    let Some(Component { id, .. }) = component_at(file, p) else {
        return false;
    };
    let at = kinds::mark_of(id);
    if marks[at] != 0 {
        if id_before(file, p, id) {
            return true;
        }
    }
    marks[at] = 1;
    false
}

// 10: an earlier component's id. The first record that fails; the number of records where none does. Crate flatten calls it, check 3 having
// passed. It stands where it is called, so that its marks have the stack that the checks after it use.
#[inline(always)]
pub fn first10(file: &[u8]) -> usize
    requires { Readable file.now }
    ensures { IsFirst (fails10 (record_at file.now)) (record_count file.now) result }
{
    let n = file.len() / 24;
    let mut marks = [0u8; 4096];
    for p in 0..n {
        if id_again(file, &mut marks, p) {
            return p;
        }
    }
    n
}

// 11: the primitives so far, this one counted, have too many inputs or outputs. Crate flatten calls it likewise.
#[inline(always)]
pub fn first11(file: &[u8]) -> usize
    requires { Readable file.now }
    ensures { IsFirst (fails11 (record_at file.now)) (record_count file.now) result }
{
    let n = file.len() / 24;
    let mut inputs: usize = 0;
    let mut outputs: usize = 0;
    for p in 0..n {
        let ports = ports_at(file, p);
        inputs += ports.inputs;
        outputs += ports.outputs;
        if (1024 < inputs) | (1024 < outputs) {
            return p;
        }
    }
    n
}

// The mark of input `input` of a child, of 16,384: those that a drawing has which the checks so far have passed have one each. Crate mend calls it
// likewise, with the index of the components alone.
pub fn place_mark(file: &[u8], index: &[u16], owner: u16, to: ChildNo, input: u16) -> usize
    requires { IsIndex file.now index.now }
    ensures { (result ≡ place_mark (record_at file.now) (record_count file.now) owner to.0 input) × (result < 16384) }
{
    let child = child_of(file, index, owner as usize, to) % 256;
    (64 * child + input as usize) % 16384
}

// 13 of the record at p, where what the records before it enter is marked, as with ids.
fn enters_again(file: &[u8], index: &[u16], marks: &mut [u8; 16384], p: usize) -> bool
    requires { IsIndex file.now index.now × IsMarked 16384 (is_entry (record_at file.now)) (entry_mark (record_at file.now) (record_count file.now)) 0 p
        marks.old }
    ensures value { result ≡ fails13 (record_at file.now) p }
    ensures marked { result ≡ false → IsMarked 16384 (is_entry (record_at file.now))
        (entry_mark (record_at file.now) (record_count file.now)) 0 (p + 1) marks.new }
{
    let Some(Entry { owner, to, input }) = entry_of(known_at(file, p)) else {
        return false;
    };
    let place = place_mark(file, index, owner, to, input);
    if marks[place] != 0 {
        if earlier_of(file, p) != p {
            return true;
        }
    }
    marks[place] = 1;
    false
}

// 13: an earlier record of kind 2 or 3 entered the same input. Crate flatten calls it likewise, with the index filled.
pub fn first13(file: &[u8], index: &[u16]) -> usize
    requires { IsIndex file.now index.now }
    ensures { IsFirst (fails13 (record_at file.now)) (record_count file.now) result }
{
    let n = file.len() / 24;
    let mut marks = [0u8; 16384];
    for p in 0..n {
        if enters_again(file, index, &mut marks, p) {
            return p;
        }
    }
    n
}
