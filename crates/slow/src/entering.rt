// Whether a connection leads into a component, worked out through the maps. Rule: docs/SPECIFICATION.md, "The slow engine". All functions are handed an
// accepted drawing with its index and its flat indexes.
ghost use Rattle.std.specs.Prelude.{◌≡◌, ℕ, ◌≤◌, ◌<◌, length, eqb};
ghost use Rattle.lists.specs.Lists.{any};
ghost use Rattle.component.specs.Record.{record_at, record_count};
ghost use Rattle.flatten.specs.declared.Pin.{Pin};
ghost use Rattle.flatten.specs.Targets.{target_place, target_in, targets_in};
ghost use Rattle.laying.specs.Laying.{end_by, Ready};
ghost use Rattle.slow.specs.Slow.{led_into, enters_by};

use component::{Reading, Says, known_at};
use flatten::{target_at, targets_from};
use index::child_of;
use laying::flat_pin;

// Whether one of the first `count` targets of a table is an input of component i.
fn any_into(indexes: &[u16], targets: &[u16], count: usize, i: usize) -> bool
    requires { (length indexes.now ≡ 256) × (target_place count ≤ length targets.now)
        × ((k : ℕ) → k < count → (target_in targets.now k).comp < 256) }
    ensures { result ≡ any (λ (t : Pin). eqb (end_by indexes.now t).comp.0 i) (targets_in targets.now count) }
{
    for k in 0..count {
        let to = flat_pin(indexes, target_at(targets, k));
        if to.comp.0 == i {
            return true;
        }
    }
    false
}

// Whether the record at p is a connection that leads into component i; its targets are listed in the table.
fn enters(
    file: &[u8],
    index: &[u16],
    indexes: &[u16],
    targets: &mut [u16],
    i: usize,
    p: usize,
) -> bool
    requires { Ready file.now index.now indexes.now × (p < record_count file.now) × (length targets.old ≡ 2048) }
    ensures { (result ≡ enters_by (record_at file.now) (record_count file.now) i p) × (length targets.new ≡ 2048) }
{
    let Reading::Taken { owner, says } = known_at(file, p) else {
        return false;
    };
    let Says::Connection { to, input, .. } = says else {
        return false;
    };
    let goal = child_of(file, index, owner as usize, to);
    let count = targets_from(file, index, goal, input, targets);
    any_into(indexes, targets, count, i)
}

// Whether a connection leads into component i.
pub(crate) fn is_led_into(file: &[u8], index: &[u16], indexes: &[u16], i: usize) -> bool
    requires { Ready file.now index.now indexes.now }
    ensures { result ≡ led_into (record_at file.now) (record_count file.now) i }
{
    let mut targets = [0u16; 2048];
    for p in 0..file.len() / 24 {
        if enters(file, index, indexes, &mut targets, i, p) {
            return true;
        }
    }
    false
}
