// Marks of the components that a list names: the following list is asked and appended to without a search.
ghost use Rattle.std.specs.Prelude.{◌≡◌, [], ℕ, ◌≤◌, ◌<◌, length, get_or, take};
ghost use Rattle.lists.specs.Lists.{append_new, overlay};
ghost use Rattle.rounds.specs.Links.{IsListed};

// Marks what the first `count` entries of a list name, where nothing is marked yet. Crate rounds calls it for lists of a net; public for a
// crate that makes rounds of its own.
pub fn mark(list: &[u16], count: usize, marks: &mut [u8; 256])
    requires { (count ≤ length list.now) × ((j : ℕ) → j < count → get_or list.now j 0 < 256) × IsListed marks.old [] }
    ensures { IsListed marks.new (take count list.now) }
{
    for entry in &list[..count] {
        marks[*entry as usize] = 1;
    }
}

// Appends x to a list whose entries are marked, unless it is marked, and marks it. The answer is the list's new count.
pub(crate) fn append_marked(
    list: &mut [u16],
    marks: &mut [u8; 256],
    count: usize,
    x: usize,
) -> usize
    requires { (x < 256) × (count ≤ length list.old) × (length (append_new x (take count list.old)) ≤ length list.old)
        × IsListed marks.old (take count list.old) }
    ensures { (result ≡ length (append_new x (take count list.old)))
        × (list.new ≡ overlay (append_new x (take count list.old)) list.old)
        × IsListed marks.new (append_new x (take count list.old)) }
{
    if marks[x] != 0 {
        return count;
    }
    marks[x] = 1;
    list[count] = x as u16;
    count + 1
}
