// Lists of components by index, each a lent table and a count of entries in use. Rule: docs/SPECIFICATION.md, "Rounds".
ghost use Rattle.std.specs.Prelude.{◌≡◌, ◌≤◌, length, take};
ghost use Rattle.lists.specs.Lists.{append_new, strike, overlay};

// Appends x unless it is there. The answer is the new count. Crates simulator and slow call it for a list of a net, which has room for
// every component.
pub fn append_new(list: &mut [u16], count: usize, x: u16) -> usize
    requires { (count ≤ length list.old) × (length (append_new x (take count list.old)) ≤ length list.old) }
    ensures { (result ≡ length (append_new x (take count list.old)))
        × (list.new ≡ overlay (append_new x (take count list.old)) list.old) }
{
    if list[..count].contains(&x) {
        return count;
    }
    list[count] = x;
    count + 1
}

// Strikes x, moving up what stands behind it. The answer is the new count; entries past it may have changed. A count past the table's
// end means all of the table.
pub fn strike(list: &mut [u16], count: usize, x: u16) -> usize
    ensures { (result ≡ length (strike x (take count list.old))) × (take result list.new ≡ strike x (take count list.old)) }
{
    let end = if count < list.len() {
        count
    } else {
        list.len()
    };
    let mut left: usize = 0;
    for i in 0..end {
        let y = list[i];
        if x != y {
            list[left] = y;
            left += 1;
        }
    }
    left
}

// Copies a list of count entries to the front of another table, which keeps what it held past them. Crates rounds and slow call it for
// the lists of a net, and crates load and slow for the standing list that crate laying has laid. One by one: the library's
// `copy_from_slice` calls `memmove`, and the archive may take only `memcpy` and `memset` from outside.
pub fn copy(list: &[u16], count: usize, into: &mut [u16])
    requires { (count ≤ length list.now) × (count ≤ length into.old) }
    ensures { into.new ≡ overlay (take count list.now) into.old }
{
    for (i, x) in list[..count].iter().enumerate() {
        into[i] = *x;
    }
}
