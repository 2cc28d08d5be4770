// The judgement of a file's bytes: the verdict, and of two records that meet what they are and which is the earlier.
// Rule: docs/SPECIFICATION.md, "Numbers given back", 13, 22 and 23.
#![tactic(auto)]

ghost use Rattle.std.specs.Prelude.{◌≡◌, length};
ghost use Rattle.component.specs.Record.{record_at};
ghost use Rattle.component.specs.Reading.{form_of};
ghost use Rattle.index.specs.Index.{IsIndex};
ghost use Rattle.meeting.specs.Meeting.{met_as, meeting, against, Judges};

use checks::earlier_of;
use component::{Reading, Says, record_at};
use kinds::Refusal;

// The kind of the record at a position, 1 to 4; 0 where check 3 refuses it.
fn record_kind(file: &[u8], p: usize) -> u8
    ensures { result ≡ form_of (record_at file.now p) }
{
    let Reading::Taken { says, .. } = record_at(file, p) else {
        return 0;
    };
    match says {
        Says::Component { .. } => 1,
        Says::Connection { .. } => 2,
        Says::InputMap { .. } => 3,
        Says::OutputMap { .. } => 4,
    }
}

// 13 where the records at q and p are connections, 23 where they are input maps, 22 where they are one of each.
fn met_as(file: &[u8], q: usize, p: usize) -> u32
    ensures { result ≡ met_as (record_at file.now) q p }
{
    let earlier = record_kind(file, q);
    let later = record_kind(file, p);
    if (earlier == 2) & (later == 2) {
        return 13;
    }
    if (earlier == 3) & (later == 3) {
        return 23;
    }
    22
}

// The refusal of the record at a position, which meets an earlier one.
fn meeting(file: &[u8], position: u32) -> Refusal
    ensures { result ≡ meeting (record_at file.now) position }
{
    let p = position as usize;
    let earlier = earlier_of(file, p);
    Refusal {
        number: met_as(file, earlier, p),
        position,
        earlier: earlier as u32,
    }
}

// A verdict with 13 split by what the two records are, and the earlier of them named.
fn against(file: &[u8], verdict: Result<(), Refusal>) -> Result<(), Refusal>
    ensures { result ≡ against (record_at file.now) verdict }
{
    let Err(refusal) = verdict else {
        return verdict;
    };
    if refusal.number != 13 {
        return verdict;
    }
    Err(meeting(file, refusal.position))
}

// What a file's bytes are judged to be; the lent index, of 3,072 words, is filled where the file is accepted.
// `judge` calls it, crate load, which has the wires laid with the same index, and crate slow, which works them out with it.
pub fn judge_indexed(file: &[u8], index: &mut [u16]) -> Result<(), Refusal>
    requires { length index.old ≡ 3072 }
    ensures judges { Judges file.now result }
    ensures index { result ≡ Ok tt → IsIndex file.now index.new }
{
    let verdict = flatten::verdict_indexed(file, index);
    against(file, verdict)
}

// What a file's bytes are judged to be.
pub fn judge(file: &[u8]) -> Result<(), Refusal>
    ensures { Judges file.now result }
{
    let mut index = [0u16; 3072];
    judge_indexed(file, &mut index)
}
