// A port's value: a number with its width. Rule: docs/SPECIFICATION.md, "What is taken, leaves first".
// It stands for the type `Data` of the Rust, whose text we do not have.
#![tactic(auto)]

ghost use Rattle.std.specs.Prelude.{◌≡◌, ◌≤◌, min};
ghost use Rattle.value.specs.Value.{widest, ones, below, fits, fits_in, bit, complement, set_to};

// The most bits of a value. The definition `widest` has the same number, and nothing else names it.
pub const WIDEST: u64 = 64;

// The bits of a word, which a shift must stay below. `WIDEST` is as many, and another thing.
const WORD: u64 = 64;

// A number with its width in bits; bit 0 is the lowest. Any two numbers may stand here, and `fits` says whether a port may hold them.
#[derive(Clone, Copy)]
pub struct Value {
    pub number: u64,
    pub width: u64,
}

// A value handed back as it came, beside whether it fits.
#[derive(Clone, Copy)]
pub struct Fit {
    pub value: Value,
    pub fits: bool,
}

// Every bit of the width set, for the widths of a word.
fn all_ones(width: u64) -> u64
    requires { width ≤ 64 }
    ensures { result ≡ ones width }
{
    if width < WORD {
        (1 << width) - 1
    } else {
        u64::MAX
    }
}

// The largest number of a width: that of the widest, where the width is past it.
pub fn largest(width: u64) -> u64
    ensures { result ≡ ones (min width widest) }
{
    if width < WIDEST {
        all_ones(width)
    } else {
        all_ones(WIDEST)
    }
}

// Whether a number lies below 2^width.
pub fn lies_below(number: u64, width: u64) -> bool
    ensures { result ≡ below number width }
{
    if width < WORD {
        number >> width == 0
    } else {
        true
    }
}

impl Value {
    // Whether a port may hold this value: its width is one of 1 to WIDEST, and its number lies below 2^width.
    pub fn fits(self) -> Fit
        ensures { result ≡ record { value = self; fits = fits self } }
    {
        let inside = (1 <= self.width) & (self.width <= WIDEST);
        Fit {
            value: self,
            fits: inside & lies_below(self.number, self.width),
        }
    }

    // Whether a port of a width may hold this value: one of another width may not.
    pub fn fits_in(self, width: u64) -> Fit
        ensures { result ≡ record { value = self; fits = fits_in width self } }
    {
        Fit {
            value: self,
            fits: (self.width == width) & self.fits().fits,
        }
    }

    // Bit i, as a value of one bit. Past the number's end it is 0.
    pub fn bit(self, i: u64) -> Value
        ensures { result ≡ bit self i }
    {
        let number = if i < WORD { (self.number >> i) % 2 } else { 0 };
        Value { number, width: 1 }
    }

    // Exactly the width's bits flipped. A value that does not fit is handed back as it came.
    pub fn complement(self) -> Value
        ensures { result ≡ complement self }
    {
        if !self.fits().fits {
            return self;
        }
        Value {
            number: all_ones(self.width) - self.number,
            width: self.width,
        }
    }

    // The value of the same width that a level sets.
    pub fn set_from_level(self, high: bool) -> Value
        ensures { result ≡ set_to self high }
    {
        Value {
            number: u64::from(high),
            width: self.width,
        }
    }
}
