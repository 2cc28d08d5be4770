// A remainder by shifts, comparisons and subtractions: the gate controller has no 64-bit divide, and no room for a routine in its place.
ghost use Rattle.std.specs.Prelude.{◌≡◌, ◌*◌, ◌%◌, ◌<◌};
ghost use Rattle.primitive.specs.Own.{Doubled};

// A number below twice the divisor, less the divisor where it reaches it.
fn reduced(number: u64, divisor: u64) -> u64
    requires { number < 2 * divisor }
    ensures { result ≡ number % divisor }
{
    if divisor <= number {
        number - divisor
    } else {
        number
    }
}

// The divisor, doubled until its double is past the number: where the number's highest bits begin to count. A small number is soon reached.
fn doubled(divisor: u64, number: u64) -> u64
    requires { 0 < divisor }
    ensures { Doubled divisor result × (number < 2 * result) }
{
    let mut multiple: u64 = divisor;
    while multiple <= number >> 1 {
        multiple = multiple << 1;
    }
    multiple
}

// What is left of the number: a multiple of the divisor is taken off where it is reached, then its half, down to the divisor itself.
// `clock_high` calls it, with twice a period.
pub(crate) fn remainder(number: u64, divisor: u64) -> u64
    requires { 0 < divisor }
    ensures { result ≡ number % divisor }
{
    let mut multiple: u64 = doubled(divisor, number);
    let mut left: u64 = reduced(number, multiple);
    while divisor < multiple {
        multiple = multiple >> 1;
        left = reduced(left, multiple);
    }
    left
}
