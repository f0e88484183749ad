// Numbers of the i32 range by their codes: the engine keeps a number v as the u32 v + 2^31, so that codes are in their order.
#![tactic(auto)]

ghost use Rattle.std.specs.Prelude.{◌≡◌, ◌≤◌, ◌<◌, ℤ, nat_abs, neg_ℤ, ◌+ℤ◌, ◌-ℤ◌, ◌*ℤ◌};
ghost use Rattle.semantics.specs.Bytes.{signed};
ghost use Rattle.semantics.specs.Journal.{twos};
ghost use Rattle.semantics.specs.Value.{in_range};
ghost use Rattle.base_numbers.specs.Code as Code;
ghost use Rattle.base_i32.specs.Code.{code, value_of, value_in, smaller, larger, MIDDLE, Difference, turned};

use base_numbers::code;

// Where 0 stands among the numbers that a sum, a difference or a product of two of them can be: room on both sides for 2^62.
const MIDDLE: u64 = 9223372036854775808;

// How far the range goes below 0 and above it; and by how much two codes together are more than their numbers.
const BELOW: u64 = code::ZERO_WORD;

const ABOVE: u64 = code::HIGHEST - code::ZERO_WORD;

const TWICE: u64 = 2 * code::ZERO_WORD;

// A value by its code; code 0 where there is none.
#[derive(Clone, Copy)]
pub struct Value {
    pub ok: bool,
    pub code: u32,
}

// The number v that stands at s, if it is in the range.
fn in_range(s: u64) -> Value
    ensures { (v : ℤ) → Difference v s MIDDLE → result ≡ value_in (in_range v) }
{
    if s < MIDDLE - BELOW {
        return Value { ok: false, code: 0 };
    }
    if MIDDLE + ABOVE < s {
        return Value { ok: false, code: 0 };
    }
    Value {
        ok: true,
        code: (s - (MIDDLE - BELOW)) as u32,
    }
}

pub fn add(x: u32, y: u32) -> Value
    ensures { result ≡ value_in (in_range (value_of x +ℤ value_of y)) }
{
    in_range(MIDDLE - TWICE + base_wide::wide(x) + base_wide::wide(y))
}

pub fn subtract(x: u32, y: u32) -> Value
    ensures { result ≡ value_in (in_range (value_of x -ℤ value_of y)) }
{
    in_range(MIDDLE + base_wide::wide(x) - base_wide::wide(y))
}

fn magnitude(x: u32) -> u64
    ensures { (result ≡ nat_abs (value_of x)) × (result ≤ Code.ZERO) }
{
    if x < code::ZERO {
        base_wide::wide(code::ZERO - x)
    } else {
        base_wide::wide(x - code::ZERO)
    }
}

pub fn multiply(x: u32, y: u32) -> Value
    ensures { result ≡ value_in (in_range (value_of x *ℤ value_of y)) }
{
    let product = magnitude(x) * magnitude(y);
    if (x < code::ZERO) == (y < code::ZERO) {
        in_range(MIDDLE + product)
    } else {
        in_range(MIDDLE - product)
    }
}

pub fn negate(x: u32) -> Value
    ensures { result ≡ value_in (in_range (neg_ℤ (value_of x))) }
{
    subtract(code::ZERO, x)
}

pub fn lesser(x: u32, y: u32) -> u32
    ensures { result ≡ code (smaller (value_of x) (value_of y)) }
{
    if x <= y { x } else { y }
}

pub fn greater(x: u32, y: u32) -> u32
    ensures { result ≡ code (larger (value_of x) (value_of y)) }
{
    if x <= y { y } else { x }
}

// From two's complement to a code and back is the same way: half of 2^32 on, round the end.
fn turn(n: u32) -> u32
    ensures { result ≡ turned n }
{
    if n < code::ZERO {
        n + code::ZERO
    } else {
        n - code::ZERO
    }
}

// The code of the number whose two's complement is n.
pub fn from_twos(n: u32) -> u32
    ensures { result ≡ code (signed n) }
{
    turn(n)
}

// The two's complement of the number whose code is x.
pub fn to_twos(x: u32) -> u32
    ensures { result ≡ twos (value_of x) }
{
    turn(x)
}
