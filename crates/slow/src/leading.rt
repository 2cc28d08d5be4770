// Sending along the wires that leave a component, each worked out through the maps. Rule: docs/SPECIFICATION.md, "The slow engine". All functions are
// handed an accepted drawing with its index, its flat indexes and the words of its components.
ghost use Rattle.std.specs.Prelude.{◌≡◌, ℕ, ◌<◌, ◌≤◌, length, take};
ghost use mathlib.Core.List.{[], map, foldl};
ghost use Rattle.component.specs.Record.{record_at, record_count};
ghost use Rattle.flatten.specs.Targets.{target_place, target_in, targets_in};
ghost use Rattle.rounds.specs.Round.{send};
ghost use Rattle.rounds.specs.Steps.{bare, state_at, CanReach};
ghost use Rattle.rounds.specs.Links.{ListMarked};
ghost use Rattle.slow.specs.Slow.{leaving_by, leaving};
ghost use Rattle.slow.specs.Sending.{lead_to, Drawing, drawing_kept};

use component::{Reading, Says, known_at};
use flatten::{source_from, target_at, targets_from};
use index::child_of;
use laying::flat_pin;
use rounds::{Wiring, send_along};
use tables::{End, Wire};

// Sends from an output along the wires to the first `count` targets of a table, in their order. The answer is the following list's new count.
fn send_to(
    components: &[u64],
    indexes: &[u16],
    from: End,
    targets: &[u16],
    count: usize,
    inputs: &mut [u64],
    outputs: &[u64],
    following: &mut [u16],
    listed: &mut [u8; 256],
    filled: usize,
) -> usize
    requires indexes_len { (length indexes.now ≡ 256) × (target_place count ≤ length targets.now)
        × ((k : ℕ) → k < count → (target_in targets.now k).comp < 256) }
    requires list_marked { ListMarked (bare components.now) filled following.old listed.old
        × ((k : ℕ) → k < count → CanReach (bare components.now) inputs.old outputs.now
        (lead_to indexes.now from (target_in targets.now k))) }
    ensures { (state_at inputs.new outputs.now (take result following.new) []
        ≡ foldl (send (bare components.now))
        (state_at inputs.old outputs.now (take filled following.old) [])
        (map (lead_to indexes.now from) (targets_in targets.now count)))
        × ListMarked (bare components.now) result following.new listed.new }
{
    let mut reached = filled;
    for k in 0..count {
        let to = flat_pin(indexes, target_at(targets, k));
        let wire = Wire { src: from, dst: to };
        reached = send_along(
            components, inputs, outputs, following, listed, reached, wire,
        );
    }
    reached
}

// Sends along the wires of the record at p, if it is a connection that comes from component i; its targets are listed in the table. The answer
// is the following list's new count.
fn send_connection(
    file: &[u8],
    index: &[u16],
    indexes: &[u16],
    targets: &mut [u16],
    components: &[u64],
    inputs: &mut [u64],
    outputs: &[u64],
    following: &mut [u16],
    listed: &mut [u8; 256],
    filled: usize,
    i: usize,
    p: usize,
) -> usize
    requires drawing { Drawing file.now index.now indexes.now components.now inputs.old outputs.now
        × (p < record_count file.now) × (length targets.old ≡ 2048) }
    requires list_marked { ListMarked (bare components.now) filled following.old listed.old }
    ensures { (state_at inputs.new outputs.now (take result following.new) []
        ≡ foldl (send (bare components.now))
        (state_at inputs.old outputs.now (take filled following.old) [])
        (leaving_by (record_at file.now) (record_count file.now) i p))
        × ListMarked (bare components.now) result following.new listed.new
        × (length targets.new ≡ 2048) }
{
    let Reading::Taken { owner, says } = known_at(file, p) else {
        return filled;
    };
    let Says::Connection {
        from,
        output,
        to,
        input,
    } = says
    else {
        return filled;
    };
    let start = child_of(file, index, owner as usize, from);
    let source = source_from(file, index, start, output);
    let end = flat_pin(indexes, source);
    if end.comp.0 != i {
        return filled;
    }
    let goal = child_of(file, index, owner as usize, to);
    let count = targets_from(file, index, goal, input, targets);
    send_to(
        components, indexes, end, targets, count, inputs, outputs, following, listed, filled,
    )
}

// The wires of an accepted drawing, with its index and its flat indexes.
#[derive(Clone, Copy)]
pub(crate) struct Drawn<'a> {
    pub(crate) file: &'a [u8],
    pub(crate) index: &'a [u16],
    pub(crate) indexes: &'a [u16],
}

impl<'a> Wiring for Drawn<'a> {
    ghost leaving = { λ d i. leaving (record_at d.file.now) (record_count d.file.now) i };

    ghost CanLeave = { λ d cs is os i. Drawing d.file.now d.index.now d.indexes.now cs is os };

    ghost kept = { λ d cs is os ms ns i v e f. drawing_kept d.file.now d.index.now d.indexes.now cs is os ms ns v e f };

    // The wires are taken in order of their connections.
    fn send_leaving(
        &self,
        components: &[u64],
        inputs: &mut [u64],
        outputs: &[u64],
        following: &mut [u16],
        listed: &mut [u8; 256],
        count: usize,
        i: usize,
    ) -> usize {
        let mut targets = [0u16; 2048];
        let mut reached = count;
        for p in 0..self.file.len() / 24 {
            reached = send_connection(
                self.file,
                self.index,
                self.indexes,
                &mut targets,
                components,
                inputs,
                outputs,
                following,
                listed,
                reached,
                i,
                p,
            );
        }
        reached
    }
}
