// Counts and answers in words of 64 bits, as the host's calls are lent them. Rule: docs/SPECIFICATION.md, "Numbers given back".
// Crates changing, asking, host and slowly call it, and have tested what the functions require.
#![tactic(auto)]

mod answers;
mod counts;

pub use answers::{lay, lay_number, lay_ran, lay_run, side_of, speak};
pub use counts::{count_at, counts_in, keep, keep_loaded};
