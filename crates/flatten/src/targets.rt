// The words of a target, laid and read. No other file knows their order.
ghost use Rattle.std.specs.Prelude.{◌≡◌, ◌+◌, ◌<◌, ◌≤◌, length};
ghost use Rattle.std.proofs.lemmas.List.Edits.{sets};
ghost use Rattle.flatten.specs.Targets.{target_place, target_words, target_in};

use crate::Pin;

// Lays the words of target k.
pub(crate) fn lay_target(targets: &mut [u16], k: usize, target: Pin)
    requires { (target_place (k + 1) ≤ length targets.old) × (target.comp < 65536) }
    ensures { targets.new ≡ sets targets.old (target_place k) (target_words target) }
{
    let at = 2 * k;
    targets[at] = target.comp as u16;
    targets[at + 1] = target.port;
}

// Target k. Crates flatten, laying, boxes and slow call it for targets that are listed.
pub fn target_at(targets: &[u16], k: usize) -> Pin
    requires { target_place (k + 1) ≤ length targets.now }
    ensures { result ≡ target_in targets.now k }
{
    let at = 2 * k;
    Pin {
        comp: targets[at] as usize,
        port: targets[at + 1],
    }
}
