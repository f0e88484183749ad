// The state of a run as one row of numbers: a number of it read or written, a row copied, and the seeds.
#![tactic(auto)]

ghost use Rattle.std.specs.Prelude.{◌≡◌, ◌+◌, ◌*◌, ◌<◌, ◌++◌, length, get_or, set, take, drop};
ghost use Rattle.semantics.specs.Numbers as No;
ghost use Rattle.base_numbers.specs.Row as Row;
ghost use Rattle.base_numbers.specs.Process as Process;

use base_numbers::{limit, process, row};

// The number at j of the row of the process in place p.
pub fn word(w: &[u64], p: usize, j: usize) -> u64
    requires { (length w.now ≡ Row.WORDS) × ((p < No.places) × (j < Process.WORDS)) }
    ensures { result ≡ get_or w.now (Row.PROCESSES + Process.WORDS * p + j) 0 }
{
    w[row::PROCESSES + process::WORDS * p + j]
}

// v written there.
pub fn set_word(w: &mut [u64], p: usize, j: usize, v: u64)
    requires { (length w.old ≡ Row.WORDS) × ((p < No.places) × (j < Process.WORDS)) }
    ensures { w.new ≡ set w.old (Row.PROCESSES + Process.WORDS * p + j) v }
{
    let at = row::PROCESSES + process::WORDS * p + j;
    w[at] = v;
}

// `from`, number by number, over a row of its length.
pub fn copy_words(from: &[u64], to: &mut [u64])
    requires { length from.now ≡ length to.old }
    ensures { to.new ≡ from.now }
{
    let mut i = 0;
    while i < from.len() {
        to[i] = from[i];
        i += 1;
    }
}

// The seeds of the samplers, copied out; and these instead.
pub fn seeds_of(w: &[u64]) -> [u64; limit::SAMPLERS]
    requires { length w.now ≡ Row.WORDS }
    ensures { result ≡ drop Row.SEEDS w.now }
{
    let mut seeds = [0u64; limit::SAMPLERS];
    copy_words(&w[row::SEEDS..row::WORDS], &mut seeds);
    seeds
}

pub fn keep_seeds(w: &mut [u64], seeds: [u64; limit::SAMPLERS])
    requires { length w.old ≡ Row.WORDS }
    ensures { w.new ≡ take Row.SEEDS w.old ++ seeds }
{
    copy_words(&seeds, &mut w[row::SEEDS..row::WORDS]);
}
