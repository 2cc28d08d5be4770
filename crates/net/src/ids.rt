// Components "have distinct ids"; an id has 32 bits. An id is searched for only where its mark is set.
ghost use Rattle.std.specs.Prelude.{◌≡◌, true, not, map, ◌+◌};
ghost use Rattle.lists.specs.Lists.{from, has};
ghost use Rattle.value.specs.Value.{below};
ghost use Rattle.net.specs.Parts.{IdsMarked};
ghost use Rattle.tables.specs.Words.{RowInside, RowsInside, id_in};

use kinds::Id;

// Whether the id of component i has 32 bits.
pub(crate) fn id_fits(components: &[u64], i: usize) -> bool
    requires { RowInside components.now i }
    ensures { result ≡ below (id_in components.now i) 32 }
{
    value::lies_below(tables::id_word(components, i), 32)
}

// The id of component i, whose word has 32 bits.
fn id_at(components: &[u64], i: usize) -> Id
    requires { RowInside components.now i × (below (id_in components.now i) 32 ≡ true) }
    ensures { result.0 ≡ id_in components.now i }
{
    Id(tables::id_word(components, i) as u32)
}

// Whether one of the first `count` components has this id.
fn id_among(components: &[u64], id: Id, count: usize) -> bool
    requires { RowsInside components.now count }
    ensures { result ≡ has id.0 (map (id_in components.now) (from 0 count)) }
{
    (0..count).any(|i| tables::has_id(components, i, id))
}

// The same where the ids of these components are marked: only an id whose mark is set is searched for.
fn is_again(components: &[u64], marks: &[u8; 4096], id: Id, count: usize) -> bool
    requires { RowsInside components.now count × IdsMarked components.now count marks.now }
    ensures { result ≡ has id.0 (map (id_in components.now) (from 0 count)) }
{
    let at = kinds::mark_of(id);
    if marks[at] == 0 {
        return false;
    }
    id_among(components, id, count)
}

// Whether no component before component i has its id. The ids before it are marked, and after the test so is its own.
pub(crate) fn id_new(components: &[u64], marks: &mut [u8; 4096], i: usize) -> bool
    requires { RowInside components.now i × (below (id_in components.now i) 32 ≡ true) × IdsMarked components.now i marks.old }
    ensures { (result ≡ not (has (id_in components.now i) (map (id_in components.now) (from 0 i))))
        × (result ≡ true → IdsMarked components.now (i + 1) marks.new) }
{
    let id = id_at(components, i);
    if is_again(components, marks, id, i) {
        return false;
    }
    let at = kinds::mark_of(id);
    marks[at] = 1;
    true
}
