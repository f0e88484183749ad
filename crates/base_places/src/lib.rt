// The living places as the bits of one number: bit p is set where a process lives in place p.
#![tactic(auto)]

ghost use Rattle.std.specs.Prelude.{◌≡◌, true, false, not, List, ◌≤◌, ◌<◌, length, set};
ghost use Rattle.semantics.specs.Numbers as No;
ghost use Rattle.semantics.specs.Words.{first_at, keep};
ghost use Rattle.semantics.specs.State.{Process, is_free};
ghost use Rattle.base_places.specs.Places.{living_of, Shows};

// The number in which every bit is set.
const EVERY: u64 = 18446744073709551615;

// The lowest free place: 64 where none is.
pub fn free_place(living: u64) -> usize
    ensures { ((ps : List Process) → Shows living ps → result ≡ first_at is_free ps) × (result ≤ No.places) }
{
    u64::trailing_zeros(EVERY - living) as usize
}

// How many live.
pub fn living_count(living: u64) -> u32
    ensures { ((ps : List Process) → Shows living ps → result ≡ length (keep (λ q. not (is_free q)) ps)) × (result ≤ No.places) }
{
    u64::count_ones(living)
}

// A living process comes into place p.
pub fn with_place(living: u64, p: usize) -> u64
    requires { p < No.places }
    ensures { (ps : List Process) (q : Process) → Shows living ps → is_free q ≡ false → result ≡ living_of (set ps p q) }
{
    living | (1u64 << (p as u64))
}

// Place p is free from now on.
pub fn without_place(living: u64, p: usize) -> u64
    requires { p < No.places }
    ensures { (ps : List Process) (q : Process) → Shows living ps → is_free q ≡ true → result ≡ living_of (set ps p q) }
{
    living - (living & (1u64 << (p as u64)))
}
