// What a kind does with its ports: one named function for a kind or a family of kinds, and `update`, which picks it.
// Rules: docs/SPECIFICATION.md, "Rounds". Source: primitive.rs, `update`.
ghost use Rattle.std.specs.Prelude.{◌≡◌, not, [], ◌∷◌, ◌+◌, ◌*◌, ◌^◌, ◌≤◌, ◌<◌, length, get_or, set, eqb};
ghost use Rattle.value.specs.Value.{level, complement};
ghost use Rattle.kinds.specs.Kinds.{number_of};
ghost use Rattle.primitive.specs.Evaluate.{highs, join, split, one, clock_high, outputs_after, moved, moved_outputs};
ghost use Rattle.primitive.specs.Own.{all_high, any_high, odd_high, most_high};
ghost use Rattle.primitive.specs.Own.{Own};

use crate::remainder::remainder;
use kinds::{Fields, Kind};
use value::Value;

// How many ports are high.
fn count_high(ports: &[u64]) -> usize
    ensures { result ≡ highs ports.now }
{
    let mut count: usize = 0;
    for port in ports {
        if 0 < *port {
            count += 1;
        }
    }
    count
}

// And, and its complement Nand. All of no ports are high.
fn all_high(ports: &[u64]) -> bool
    ensures { result ≡ all_high ports.now }
{
    count_high(ports) == ports.len()
}

// Or, and its complement Nor. None of no ports is high.
fn any_high(ports: &[u64]) -> bool
    ensures { result ≡ any_high ports.now }
{
    0 < count_high(ports)
}

// Xor.
fn odd_high(ports: &[u64]) -> bool
    ensures { result ≡ odd_high ports.now }
{
    count_high(ports) % 2 == 1
}

// Majority: twice the number of high ports exceeds the number of ports. Half of them are not most.
fn most_high(ports: &[u64]) -> bool
    requires { length ports.now ≤ 64 }
    ensures { result ≡ most_high ports.now }
{
    ports.len() < 2 * count_high(ports)
}

// Not.
fn not_gate(input: u64) -> u64
    ensures { result ≡ (complement (record { number = input; width = 1 })).number }
{
    let value = Value {
        number: input,
        width: 1,
    };
    value.complement().number
}

// The number of a level.
fn level_of(high: bool) -> u64
    ensures { result ≡ level high }
{
    let low = Value {
        number: 0,
        width: 1,
    };
    low.set_from_level(high).number
}

// Joiner: bit i of the number is port i. From the last port down, each port before doubles the number and sets its lowest bit.
fn join(ports: &[u64]) -> u64
    requires { length ports.now ≤ 64 }
    ensures { result ≡ join ports.now }
{
    let mut number: u64 = 0;
    for port in ports.iter().rev() {
        number = level_of(0 < *port) + 2 * number;
    }
    number
}

// Writes output i where that changes it, and then sets bit i of `bits`, which has none set from there on. The answer is the bits.
fn put_at(outputs: &mut [u64], i: usize, number: u64, bits: u64) -> u64
    requires { (i < length outputs.old) × (i < 64) × (bits < 2 ^ i) }
    ensures { (result ≡ bits + level (not (eqb (get_or outputs.old i 0) number)) * 2 ^ i)
        × (outputs.new ≡ set outputs.old i number) }
{
    if outputs[i] == number {
        return bits;
    }
    outputs[i] = number;
    bits | (1 << i)
}

// Splitter: output i is bit i of the input, the lowest of what is left when it has been halved i times. The answer is which outputs
// changed.
fn split(input: u64, outputs: &mut [u64]) -> u64
    requires { length outputs.old ≤ 64 }
    ensures { (result ≡ moved outputs.old outputs.new)
        × (outputs.new ≡ split input (length outputs.old)) }
{
    let mut left = input;
    let mut bits: u64 = 0;
    for i in 0..outputs.len() {
        let value = Value {
            number: left,
            width: 64,
        };
        bits = put_at(outputs, i, value.bit(0).number, bits);
        left /= 2;
    }
    bits
}

// Clock.
fn clock_high(period: u64, time: u64) -> bool
    requires { (0 < period) × (period ≤ 2 ^ 62) }
    ensures { result ≡ clock_high period time }
{
    period < remainder(time, 2 * period)
}

// Writes the one output. The answer is 1 where that changed it, else 0: bit 0 of which outputs changed.
fn put(outputs: &mut [u64], number: u64) -> u64
    requires { length outputs.old ≡ 1 }
    ensures { (result ≡ moved outputs.old outputs.new) × (outputs.new ≡ number ∷ []) }
{
    let bits = level_of(outputs[0] != number);
    outputs[0] = number;
    bits
}

// Sets the one output from a level. The answer is that of `put`.
fn put_level(outputs: &mut [u64], high: bool) -> u64
    requires { length outputs.old ≡ 1 }
    ensures { (result ≡ moved outputs.old outputs.new) × (outputs.new ≡ one high) }
{
    put(outputs, level_of(high))
}

// Evaluates a component of a known kind over its own ports. The answer is which outputs changed, bit i for output i.
fn update_as(kind: Kind, f: Fields, inputs: &[u64], outputs: &mut [u64], time: u64) -> u64
    requires { (f.kind ≡ number_of kind) × Own f inputs.now outputs.old }
    ensures { (result ≡ moved outputs.old outputs.new)
        × (outputs.new ≡ outputs_after f inputs.now outputs.old time) }
{
    match kind {
        Kind::Composite => 0,
        Kind::And => put_level(outputs, all_high(inputs)),
        Kind::Or => put_level(outputs, any_high(inputs)),
        Kind::Not => put(outputs, not_gate(inputs[0])),
        Kind::Nand => put_level(outputs, !all_high(inputs)),
        Kind::Nor => put_level(outputs, !any_high(inputs)),
        Kind::Xor => put_level(outputs, odd_high(inputs)),
        Kind::Switch => 0,
        Kind::Input => put(outputs, inputs[0]),
        Kind::Output => put(outputs, inputs[0]),
        Kind::Splitter => split(inputs[0], outputs),
        Kind::Joiner => put(outputs, join(inputs)),
        Kind::Clock => put_level(outputs, clock_high(f.parameter, time)),
        Kind::Const => 0,
        Kind::Majority => put_level(outputs, most_high(inputs)),
    }
}

// Evaluates a component that obeys the table of kinds over its own ports and no others. The answer is which of its outputs changed, bit
// i for output i. `evaluate` calls it, crate rounds does for each component of a round, and crate judging for each that it judges: all
// have tested what it requires. The number of such a component is a kind's: the second arm is never taken.
pub fn update(f: Fields, inputs: &[u64], outputs: &mut [u64], time: u64) -> u64
    requires { Own f inputs.now outputs.old }
    ensures { (result ≡ moved_outputs f inputs.now outputs.old time)
        × (outputs.new ≡ outputs_after f inputs.now outputs.old time) }
{
    match Kind::try_from(f.kind) {
        Ok(kind) => update_as(kind, f, inputs, outputs, time),
        Err(_) => 0,
    }
}
