// The words of the questions' answers, which crate words lays.
ghost use Rattle.std.specs.Prelude.{◌≡◌, [], ◌∷◌};
ghost use Rattle.value.specs.Value.{level};

use tables::FlatIdx;
use value::Value;

// The word of an answer whether something is so: 1 or 0.
pub(crate) fn whether_words(so: bool) -> [u64; 1]
    ensures { result ≡ level so ∷ [] }
{
    [so as u64]
}

// The word of an index.
pub(crate) fn index_words(index: FlatIdx) -> [u64; 1]
    ensures { result ≡ index.0 ∷ [] }
{
    [index.0 as u64]
}

// The words of a value: its number and its width.
pub(crate) fn value_words(value: Value) -> [u64; 2]
    ensures { result ≡ value.number ∷ value.width ∷ [] }
{
    [value.number, value.width]
}

// The word of a list: how many it names.
pub(crate) fn list_words(count: usize) -> [u64; 1]
    ensures { result ≡ count ∷ [] }
{
    [count as u64]
}
