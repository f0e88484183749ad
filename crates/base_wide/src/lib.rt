// Numbers as ones of a wider type. Each is a call, which asks a caller for less than a cast would, and tells how large it is.
#![tactic(auto)]

ghost use Rattle.std.specs.Prelude.{◌≡◌, ◌<◌};
ghost use Rattle.base_numbers.specs.Byte as Byte;

pub fn wide_byte(byte: u8) -> u32
    ensures { (result ≡ byte) × (result < Byte.ONE) }
{
    byte as u32
}

pub fn wide_short(short: u16) -> u32
    ensures { (result ≡ short) × (result < Byte.TWO) }
{
    short as u32
}

pub fn long(short: u16) -> u64
    ensures { (result ≡ short) × (result < Byte.TWO) }
{
    short as u64
}

pub fn wide(x: u32) -> u64
    ensures { (result ≡ x) × (result < Byte.FOUR) }
{
    x as u64
}

// As an index.
pub fn short_index(short: u16) -> usize
    ensures { (result ≡ short) × (result < Byte.TWO) }
{
    short as usize
}

pub fn index(x: u32) -> usize
    ensures { (result ≡ x) × (result < Byte.FOUR) }
{
    x as usize
}
