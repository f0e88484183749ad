// Whether one action's branches bar another's. The map has three words of each branch for the things that it names: these bits
// decide, and amounts are looked at only where two branches name the same things.
#![tactic(auto)]

ghost use Rattle.std.specs.Prelude.{◌≡◌, ◌<◌, length};
ghost use Rattle.semantics.specs.Words.{any};
ghost use Rattle.semantics.specs.Claim.{bars};
ghost use Rattle.base_numbers.specs.Limit as Limit;
ghost use Rattle.base_numbers.specs.Map as Map;
ghost use Rattle.file_bars.specs.Barring.{There, AllThere, Barring};
ghost use Rattle.file_bars.specs.Bits.{names_nothing, within, named_at, covers_at, numbers_to};

use base_numbers::map;

// What a branch names: bit i of a word is set if it names the i-th thing of that kind.
#[derive(Clone, Copy)]
struct Named {
    resources: u32,
    bins: u32,
    syncs: u32,
}

fn named_at(map: &[u32], n: usize) -> Named
    requires { (length map.now ≡ Map.WORDS) × (n < Limit.BRANCHES) }
    ensures { result ≡ named_at map.now n }
{
    Named {
        resources: map[map::RESOURCES + n],
        bins: map[map::BINS + n],
        syncs: map[map::SYNCS + n],
    }
}

fn names_nothing(x: Named) -> bool
    ensures { result ≡ names_nothing x }
{
    (x.resources == 0) & ((x.bins == 0) & (x.syncs == 0))
}

// Whether y names all that x names.
fn within(x: Named, y: Named) -> bool
    ensures { result ≡ within x y }
{
    (x.resources & y.resources == x.resources)
        & ((x.bins & y.bins == x.bins) & (x.syncs & y.syncs == x.syncs))
}

// Whether branch m covers branch n: the bits decide, and where both name the same things, the amounts do.
fn covers<'a>(s: &'a [u8], map: &'a [u32], m: usize, n: usize) -> bool
    requires { (length map.now ≡ Map.WORDS) × (There s.now map.now m × There s.now map.now n) }
    ensures { result ≡ covers_at s.now map.now m n }
{
    let x = named_at(map, n);
    let y = named_at(map, m);
    let part = within(x, y);
    let whole = within(y, x);
    if part & whole {
        let of = file_map::claim_at(map, n);
        let by = file_map::claim_at(map, m);
        return file_claim::smaller_amounts(s, of, by);
    }
    !names_nothing(x) & part
}

// Whether one of the branches from `from` to before `to` covers branch n.
fn covered<'a>(s: &'a [u8], map: &'a [u32], from: usize, to: usize, n: usize) -> bool
    requires { (length map.now ≡ Map.WORDS) × (AllThere s.now map.now from to × There s.now map.now n) }
    ensures { result ≡ any (λ m. covers_at s.now map.now m n) (numbers_to from to) }
{
    let mut m = from;
    while m < to {
        if covers(s, map, m, n) {
            return true;
        }
        m += 1;
    }
    false
}

// Whether action b bars action q.
pub fn bars<'a>(s: &'a [u8], map: &'a [u32], b: usize, q: usize) -> bool
    requires { Barring s.now map.now b q }
    ensures { (v : Barring s.now map.now b q) → result ≡ bars v.by v.of }
{
    let from = file_map::branches_from(map, b);
    let to = file_map::branches_from(map, b + 1);
    let end = file_map::branches_from(map, q + 1);
    let mut n = file_map::branches_from(map, q);
    while n < end {
        if !covered(s, map, from, to, n) {
            return false;
        }
        n += 1;
    }
    true
}
