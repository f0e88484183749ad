// Numbers of one, two and four bytes, little-endian, at a place of a slice.
#![tactic(auto)]

ghost use Rattle.std.specs.Prelude.{◌≡◌, ◌+◌, ◌*◌, ◌≤◌, ◌<◌, length};
ghost use Rattle.semantics.specs.Bytes.{u8, u16, u32};
ghost use Rattle.base_numbers.specs.Byte as Byte;

use base_numbers::byte;

pub fn u8_at(s: &[u8], at: usize) -> u32
    requires { at < length s.now }
    ensures { (result ≡ u8 s.now at) × (result < Byte.ONE) }
{
    let one = s[at];
    base_wide::wide_byte(one)
}

pub fn u16_at(s: &[u8], at: usize) -> u32
    requires { at + 2 ≤ length s.now }
    ensures { (result ≡ u16 s.now at) × (result < Byte.TWO) }
{
    base_wide::wide_byte(s[at]) + byte::ONE * base_wide::wide_byte(s[at + 1])
}

pub fn u32_at(s: &[u8], at: usize) -> u32
    requires { at + 4 ≤ length s.now }
    ensures { result ≡ u32 s.now at }
{
    u16_at(s, at) + byte::TWO * u16_at(s, at + 2)
}
