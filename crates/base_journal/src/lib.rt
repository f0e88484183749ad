// The journal as bytes: a line of it written into a lent slice, 16 bytes for each line.
#![tactic(auto)]

ghost use Rattle.std.specs.Prelude.{◌≡◌, ◌+◌, ◌*◌, ◌%◌, ◌≤◌, ◌<◌, length};
ghost use Rattle.std.proofs.lemmas.List.Edits.{sets};
ghost use Rattle.semantics.specs.Journal.{le16, le32, line_bytes};
ghost use Rattle.base_numbers.specs.Line as Line;
ghost use Rattle.base_numbers.specs.Byte as Byte;
ghost use Rattle.base_i32.specs.Code.{value_of};

use base_numbers::{byte, line};

fn low_byte(n: u32) -> u8
    ensures { result ≡ n % Byte.ONE }
{
    (n % byte::ONE) as u8
}

// The low 16 bits of `n`, the lowest byte first.
fn write_16(out: &mut [u8], at: usize, n: u32)
    requires { at + 2 ≤ length out.old }
    ensures { out.new ≡ sets out.old at (le16 n) }
{
    out[at] = low_byte(n);
    out[at + 1] = low_byte(n / byte::ONE);
}

// `n`, the lowest byte first.
fn write_32(out: &mut [u8], at: usize, n: u32)
    requires { at + 4 ≤ length out.old }
    ensures { out.new ≡ sets out.old at (le32 n) }
{
    write_16(out, at, n);
    write_16(out, at + 2, n / byte::TWO);
}

// A line at its place, counted in lines. The kind has 16 bits, and `value` is a code.
pub fn write_line(out: &mut [u8], at: usize, kind: u32, time: u32, process: u32, value: u32)
    requires at_in_bounds { Line.BYTES * at + Line.BYTES ≤ length out.old }
    requires kind_bound { kind < Byte.TWO }
    ensures { out.new ≡ sets out.old (Line.BYTES * at)
        (line_bytes (record { time = time; process = process; kind = kind; value = value_of value })) }
{
    let start = line::BYTES * at;
    write_16(out, start, line::LENGTH);
    write_16(out, start + line::KIND_AT, kind);
    write_32(out, start + line::TIME_AT, time);
    write_32(out, start + line::PROCESS_AT, process);
    write_32(out, start + line::VALUE_AT, base_i32::to_twos(value));
}
