// Check 15. Rule: docs/SPECIFICATION.md, "Numbers given back".
ghost use Rattle.std.specs.Prelude.{◌≡◌, ◌≤◌, ◌<◌, length};
ghost use Rattle.lists.specs.Lists.{any};
ghost use Rattle.component.specs.Record.{record_at, record_count};
ghost use Rattle.index.specs.Index.{IsIndex};
ghost use Rattle.component.specs.Reading.{Readable};
ghost use Rattle.checks.specs.Checks.{IsFirst};
ghost use Rattle.flatten.specs.Descent.{fails15};
ghost use Rattle.flatten.specs.Searches.{unlike, PassedBefore};
ghost use Rattle.flatten.specs.Targets.{target_place, targets_in};

use crate::Pin;
use crate::descent::{source_from, targets_from};
use crate::targets::target_at;
use component::{Reading, Says, fields_at, known_at};
use index::child_of;

// Whether a target has another width.
fn differs(file: &[u8], target: Pin, width: u64) -> bool
    requires { Readable file.now }
    ensures { result ≡ unlike (record_at file.now) width target }
{
    width != kinds::input_width(fields_at(file, target.comp))
}

// Whether one of the first `count` targets of a table has another width.
fn any_differs(file: &[u8], targets: &[u16], count: usize, width: u64) -> bool
    requires { Readable file.now × (target_place count ≤ length targets.now) }
    ensures { result ≡ any (unlike (record_at file.now) width) (targets_in targets.now count) }
{
    (0..count).any(|k| differs(file, target_at(targets, k), width))
}

// Whether the connection at p yields a wire whose ends differ in width; its targets are listed in the table. The checks before 15 have passed, so that
// there are at most 1,024.
fn yields_unlike(file: &[u8], index: &[u16], targets: &mut [u16], p: usize) -> bool
    requires index { IsIndex file.now index.now × (p < record_count file.now) × (length targets.old ≡ 2048) }
    requires passed_before { PassedBefore (record_at file.now) (record_count file.now) 15 }
    ensures { (result ≡ fails15 (record_at file.now) (record_count file.now) p) × (length targets.new ≡ 2048) }
{
    let Reading::Taken { owner, says } = known_at(file, p) else {
        return false;
    };
    let Says::Connection {
        from,
        output,
        to,
        input,
    } = says
    else {
        return false;
    };
    let start = child_of(file, index, owner as usize, from);
    let source = source_from(file, index, start, output);
    let width = kinds::output_width(fields_at(file, source.comp));
    let goal = child_of(file, index, owner as usize, to);
    let count = targets_from(file, index, goal, input, targets);
    any_differs(file, targets, count, width)
}

// 15: a connection yields a wire whose ends differ in width. The first record that fails; the number of records where none does.
pub(crate) fn first15(file: &[u8], index: &[u16]) -> usize
    requires index { IsIndex file.now index.now }
    requires passed_before { PassedBefore (record_at file.now) (record_count file.now) 15 }
    ensures { IsFirst (fails15 (record_at file.now) (record_count file.now)) (record_count file.now) result }
{
    let mut targets = [0u16; 2048];
    let n = file.len() / 24;
    for p in 0..n {
        if yields_unlike(file, index, &mut targets, p) {
            return p;
        }
    }
    n
}
