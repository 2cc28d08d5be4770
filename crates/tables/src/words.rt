// Reading a word of a lent table. Callers know that the place is inside: tables of full size hold every word below the counts.
ghost use Rattle.std.specs.Prelude.{◌≡◌, ◌<◌, length, get_or};

// A word of a table of words. Crates net and rounds call it, for a place inside.
pub fn word(table: &[u64], at: usize) -> u64
    requires { at < length table.now }
    ensures { result ≡ get_or table.now at 0 }
{
    table[at]
}

// A word of a table of 16-bit numbers, a component's index or a port, as the index that it is. No crate here calls it: each reads a list where it
// stands. It is for callers who want the number as an index, for a place inside.
pub fn entry(table: &[u16], at: usize) -> usize
    requires { at < length table.now }
    ensures { result ≡ get_or table.now at 0 }
{
    table[at] as usize
}
