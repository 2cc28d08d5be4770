// Calm: all three lists name only Clocks. Rule: docs/SPECIFICATION.md, "Rounds".
ghost use Rattle.std.specs.Prelude.{◌≡◌, [], take};
ghost use Rattle.tables.specs.Tables.{tables_of};
ghost use Rattle.tables.specs.Words.{uncounted};
ghost use Rattle.rounds.specs.Round.{only_clocks, calm};
ghost use Rattle.rounds.specs.Steps.{ListInside};

use kinds::Kind;
use tables::Counts;

// Whether the first `count` entries of a list name only Clocks.
fn only_clocks(components: &[u64], list: &[u16], count: usize) -> bool
    requires { ListInside components.now count list.now }
    ensures { result ≡ only_clocks (uncounted components.now []) (take count list.now) }
{
    for entry in &list[..count] {
        if !tables::is_kind(components, *entry as usize, Kind::Clock) {
            return false;
        }
    }
    true
}

// Whether all three lists of a net name only Clocks. Crate questions asks it, and crate simulator after each round of a run until calm.
pub fn net_calm(
    components: &[u64],
    current: &[u16],
    following: &[u16],
    standing: &[u16],
    counts: Counts,
) -> bool
    requires { ListInside components.now counts.current current.now
        × ListInside components.now counts.following following.now
        × ListInside components.now counts.standing standing.now }
    ensures { result ≡ calm (tables_of components.now [] [] [] current.now following.now
        standing.now counts) }
{
    only_clocks(components, current, counts.current)
        && only_clocks(components, following, counts.following)
        && only_clocks(components, standing, counts.standing)
}
