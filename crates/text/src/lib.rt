// Lines of text in a lent buffer, for the programs. A line that has no room is cut; each program lends room for its longest line.
#![tactic(auto)]

ghost use Rattle.std.specs.Prelude.{◌≡◌, ℕ, List, [], ◌∷◌, min, length};
ghost use Rattle.text.specs.Text.{written, place_after, numeral, spaced, Puts, Converted};

// The descriptor of standard output.
const STDOUT: i32 = 1;

// A place, or the buffer's end where it is past that.
fn within(out: &[u8], at: usize) -> usize
    ensures { result ≡ min at (length out.now) }
{
    if at < out.len() { at } else { out.len() }
}

// Puts a byte at a place, and answers the next place.
pub fn put(out: &mut [u8], at: usize, byte: u8) -> usize
    ensures value { result ≡ place_after out.old at 1 }
    ensures out_after { out.new ≡ written out.old at (byte ∷ []) }
{
    if at < out.len() {
        out[at] = byte;
        return at + 1;
    }
    out.len()
}

// Puts some bytes.
pub fn put_bytes(out: &mut [u8], at: usize, bytes: &[u8]) -> usize
    ensures value { result ≡ place_after out.old at (length bytes.now) }
    ensures out_after { out.new ≡ written out.old at bytes.now }
{
    let mut next = within(out, at);
    for byte in bytes {
        next = put(out, next, *byte);
    }
    next
}

// Puts the digits of a number.
pub fn put_number(out: &mut [u8], at: usize, number: u64) -> usize
    ensures value { result ≡ place_after out.old at (length (numeral number)) }
    ensures out_after { out.new ≡ written out.old at (numeral number) }
{
    let mut digits = [0u8; 20];
    let count = io::decimal(number, &mut digits);
    put_bytes(out, at, &digits[..count])
}

// Puts a blank and a number.
fn put_spaced(out: &mut [u8], at: usize, number: u64) -> usize
    ensures value { result ≡ place_after out.old at (length (32 ∷ numeral number)) }
    ensures out_after { out.new ≡ written out.old at (32 ∷ numeral number) }
{
    let next = put(out, at, b' ');
    put_number(out, next, number)
}

// Puts numbers, of any type whose values go into 64 bits, each after a blank.
pub fn put_numbers<T: Copy + Into<u64>>(out: &mut [u8], at: usize, numbers: &[T]) -> usize
    ensures { (ns : List ℕ) × Converted T.converts numbers.now ns × Puts out.old at (spaced ns) out.new result }
{
    let mut next = within(out, at);
    for number in numbers {
        next = put_spaced(out, next, (*number).into());
    }
    next
}

// Writes out what stands before a place, and answers how many bytes that is.
pub fn flush(out: &[u8], at: usize) -> usize
    ensures { result ≡ min at (length out.now) }
{
    let count = within(out, at);
    io::write_all(STDOUT, &out[..count]);
    count
}
