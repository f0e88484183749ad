// What a program reads, into memory that it holds already.
#![tactic(auto)]

ghost use Rattle.std.specs.Prelude.{◌≡◌, ◌-◌, ◌≤◌, length, take, drop, replicate, IfSome, IfOk, OnErr};
ghost use Rattle.std.specs.Io.KnownBytes.{Consumes};
ghost use Rattle.plan_input.specs.Lost.{LosesUnder};

use std::io;
use std::io::Read;

// Reads into `room` until that is full or the input ends, and answers how many bytes that was. Behind them stand zeros; where a
// read fails, only zeros.
//
// It is a loop over `read`, as std's `read_exact` ends with an error where the input does, and its `read_to_end` takes a Vec.
pub fn read_full<R: Read>(reader: &mut R, room: &mut [u8]) -> io::Result<usize>
    ensures bound { IfOk result (λ n. n ≤ length room.new) }
    ensures same_len { length room.new ≡ length room.old }
    ensures bytes { IfOk result (λ n. IfSome (R.remaining reader.old) (λ input.
        take n room.new ≡ take (length room.old) input)) }
    ensures consumed { IfOk result (λ n. Consumes (R.remaining reader.old) (R.remaining reader.new) (take n room.new)) }
    ensures behind { IfOk result (λ n. drop n room.new ≡ replicate (length room.old - n) 0) }
    ensures blank { OnErr result (room.new ≡ replicate (length room.old) 0) }
    ensures lost { OnErr result (LosesUnder (length room.old) (R.remaining reader.old) (R.remaining reader.new)) }
{
    let mut size = 0;
    while size < room.len() {
        let n = match reader.read(&mut room[size..]) {
            Ok(n) => n,
            Err(error) => {
                room.fill(0);
                return Err(error);
            }
        };
        if n == 0 {
            room[size..].fill(0);
            return Ok(size);
        }
        size += n;
    }
    Ok(size)
}
