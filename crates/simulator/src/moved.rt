// How many outputs a round has moved: the bits set in what it passes on.
ghost use Rattle.std.specs.Prelude.{◌≡◌, length, take, ◌≤◌};
ghost use Rattle.lists.specs.Lists.{total};
ghost use Rattle.simulator.specs.Calls.{bits_set};

// How many bits of a word are set.
fn bits_set(word: u64) -> u32
    ensures { result ≡ bits_set word }
{
    u64::count_ones(word)
}

// How many bits are set in the first `count` words. Crate simulator calls it for what a round has passed on; public for a crate that runs
// rounds of its own.
pub fn count_moved(bits: &[u64], count: usize) -> u32
    requires { (count ≤ length bits.now) × (count ≤ 256) }
    ensures { result ≡ total bits_set (take count bits.now) }
{
    let mut moved: u32 = 0;
    for word in &bits[..count] {
        moved += bits_set(*word);
    }
    moved
}
