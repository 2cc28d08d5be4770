// "each list names existing components without repeats"
ghost use Rattle.std.specs.Prelude.{◌≡◌, [], ◌≤◌, length, take};
ghost use Rattle.net.specs.Net.{names};
ghost use Rattle.net.specs.Parts.{lent};

use tables::Counts;

// Whether the first `count` entries of a list name components, none twice: each component that is named is marked. Crates net and slow call it
// where the counts are within their limits.
pub fn names(list: &[u16], count: usize, counts: Counts) -> bool
    requires { (counts.components ≤ 256) × (count ≤ length list.now) }
    ensures { result ≡ names (lent [] [] [] [] counts) (take count list.now) }
{
    let n = counts.components;
    let mut seen = [0u8; 256];
    for entry in &list[..count] {
        let named = *entry as usize;
        if n <= named {
            return false;
        }
        if seen[named] != 0 {
            return false;
        }
        seen[named] = 1;
    }
    true
}
