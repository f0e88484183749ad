// The generator of samples: the seed after a seed, and what is drawn when a seed has become this one.
#![tactic(auto)]

ghost use Rattle.std.specs.Prelude.{◌≡◌, ◌+◌, ◌-◌, ◌≤◌};
ghost use Rattle.semantics.specs.Generator.{next_seed, drawn};
ghost use Rattle.base_numbers.specs.Limit as Limit;
ghost use Rattle.base_numbers.specs.Code as Code;
ghost use Rattle.base_i32.specs.Code.{code, value_of};

const MULTIPLIER: u64 = 16807;

const MODULUS: u64 = 2147483647;

pub fn next_seed(seed: u64) -> u64
    requires { seed ≤ Limit.SEED }
    ensures { result ≡ next_seed seed }
{
    MULTIPLIER * seed % MODULUS
}

// The code of what is drawn from so many values, of which the lowest has this code.
pub fn drawn(lowest: u32, values: u32, seed: u64) -> u32
    requires { (1 ≤ values) × (lowest + values ≤ Code.CODES) }
    ensures { result ≡ code (drawn (value_of lowest) (value_of (lowest + values - 1)) seed) }
{
    lowest + (seed % base_wide::wide(values)) as u32
}
