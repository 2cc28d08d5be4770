// The seven lent tables with their counts as one value, for all that only reads them. Rule: docs/SPECIFICATION.md, "Numbers given back".
// Functions that change tables take them one by one, and lend them so for their checks.
ghost use Rattle.std.specs.Prelude.{◌≡◌};
ghost use Rattle.tables.specs.Tables.{Tables, tables_of, full_size};

use crate::Counts;
use std::marker::Model;

// Full size: entries, at 8 words a component and 4 a wire.
const COMPONENT_WORDS: usize = 2048;

const PORTS: usize = 1024;

const WIRE_WORDS: usize = 4096;

const NAMES: usize = 256;

// The tables as a call is lent them, and how many entries of each are in use.
#[derive(Drop)]
pub struct Lent<'a> {
    components: &'a [u64],
    inputs: &'a [u64],
    outputs: &'a [u64],
    wires: &'a [u16],
    current: &'a [u16],
    following: &'a [u16],
    standing: &'a [u16],
    counts: Counts,
}

impl<'a> Model for Lent<'a> {
    ghost Value = { Tables };

    ghost view = { λ s. tables_of s.components.now s.inputs.now s.outputs.now s.wires.now
        s.current.now s.following.now s.standing.now s.counts };
}

impl<'a> Lent<'a> {
    // The tables of a call, taken together.
    pub fn new(
        components: &'a [u64],
        inputs: &'a [u64],
        outputs: &'a [u64],
        wires: &'a [u16],
        current: &'a [u16],
        following: &'a [u16],
        standing: &'a [u16],
        counts: Counts,
    ) -> Lent<'a>
        ensures { result ≡ tables_of components.now inputs.now outputs.now wires.now current.now following.now standing.now counts }
    {
        Lent {
            components,
            inputs,
            outputs,
            wires,
            current,
            following,
            standing,
            counts,
        }
    }

    // The words of the components.
    pub fn components(&self) -> &'a [u64]
        ensures { result.now ≡ self.now.components }
    {
        self.components
    }

    // The numbers of the inputs.
    pub fn inputs(&self) -> &'a [u64]
        ensures { result.now ≡ self.now.inputs }
    {
        self.inputs
    }

    // The numbers of the outputs.
    pub fn outputs(&self) -> &'a [u64]
        ensures { result.now ≡ self.now.outputs }
    {
        self.outputs
    }

    // The words of the wires.
    pub fn wires(&self) -> &'a [u16]
        ensures { result.now ≡ self.now.wires }
    {
        self.wires
    }

    // The current list.
    pub fn current(&self) -> &'a [u16]
        ensures { result.now ≡ self.now.current }
    {
        self.current
    }

    // The following list.
    pub fn following(&self) -> &'a [u16]
        ensures { result.now ≡ self.now.following }
    {
        self.following
    }

    // The standing list.
    pub fn standing(&self) -> &'a [u16]
        ensures { result.now ≡ self.now.standing }
    {
        self.standing
    }

    // How many entries of each are in use.
    pub fn counts(&self) -> Counts
        ensures { result ≡ self.now.counts }
    {
        self.counts
    }

    // Check 2: whether no table is shorter than full size, whatever the counts.
    pub fn full_size(&self) -> bool
        ensures { result ≡ full_size self.now }
    {
        (COMPONENT_WORDS <= self.components.len())
            & (PORTS <= self.inputs.len())
            & (PORTS <= self.outputs.len())
            & (WIRE_WORDS <= self.wires.len())
            & (NAMES <= self.current.len())
            & (NAMES <= self.following.len())
            & (NAMES <= self.standing.len())
    }
}
