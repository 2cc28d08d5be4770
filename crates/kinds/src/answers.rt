// What a call answers that may be refused. Rule: docs/SPECIFICATION.md, "Numbers given back".
ghost use Rattle.std.specs.Prelude.{◌≡◌};
ghost use Rattle.kinds.specs.Given.{refused_by};

// A number given back, the position of the record that it is about, 0 where it is about none, and of the earlier record which that one
// meets, 0 where it meets none.
#[derive(Clone, Copy)]
pub struct Refusal {
    pub number: u32,
    pub position: u32,
    pub earlier: u32,
}

// A refusal at position 0: it is about no record.
pub fn refused_by(number: u32) -> Refusal
    ensures { result ≡ refused_by number }
{
    Refusal {
        number,
        position: 0,
        earlier: 0,
    }
}
