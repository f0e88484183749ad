// What the engine reads an accepted model by, as one row of numbers, the map: where blocks and actions begin, class bodies, and
// of each branch where its claim stands and what it names; of each sampler what it draws from.
#![tactic(auto)]

ghost use Rattle.std.specs.Prelude.{◌≡◌, ◌+◌, ◌≤◌, ◌<◌, length, get_or};
ghost use Rattle.std.proofs.lemmas.List.Edits.{sets};
ghost use Rattle.semantics.specs.Bytes.{records_from};
ghost use Rattle.base_numbers.specs.Limit as Limit;
ghost use Rattle.base_numbers.specs.Map as Parts;
ghost use Rattle.file_index.specs.Index.{Readable};
ghost use Rattle.file_map.specs.MapOf.{map_of};

use base_numbers::map;

// The parts that base_numbers::map says, one behind the other. What is not used is 0.
#[derive(Clone, Copy)]
pub struct Map {
    pub words: [u32; map::WORDS],
}

// The numbers xs, laid from a place of the row on.
fn lay_u16(xs: &[u16], at: usize, row: &mut [u32])
    requires { at + length xs.now ≤ length row.old }
    ensures { row.new ≡ sets row.old at xs.now }
{
    let mut i = 0;
    while i < xs.len() {
        row[at + i] = base_wide::wide_short(xs[i]);
        i = i + 1;
    }
}

fn lay_u32(xs: &[u32], at: usize, row: &mut [u32])
    requires { at + length xs.now ≤ length row.old }
    ensures { row.new ≡ sets row.old at xs.now }
{
    let mut i = 0;
    while i < xs.len() {
        row[at + i] = xs[i];
        i = i + 1;
    }
}

// The map of a file that the first pass accepts.
pub fn map_of(s: &[u8]) -> Map
    requires { Readable s.now }
    ensures { result.words ≡ map_of (records_from 0 s.now) }
{
    let x = file_index::index_of(s);
    let b = file_index::branches_of(s);
    let d = file_index::samplers_of(s);
    let mut words = [0u32; map::WORDS];
    lay_u16(&x.first, map::FIRST, &mut words);
    lay_u16(&x.place, map::PLACE, &mut words);
    lay_u16(&x.body, map::BODY, &mut words);
    lay_u16(&b.from, map::FROM, &mut words);
    lay_u16(&b.claim, map::CLAIM, &mut words);
    lay_u32(&b.resources, map::RESOURCES, &mut words);
    lay_u32(&b.bins, map::BINS, &mut words);
    lay_u32(&b.syncs, map::SYNCS, &mut words);
    lay_u32(&d.lowest, map::LOWEST, &mut words);
    lay_u32(&d.values, map::VALUES, &mut words);
    Map { words: words }
}

// The number at i of it.
pub fn number_at(map: &[u32], i: usize) -> usize
    requires { i < length map.now }
    ensures { result ≡ get_or map.now i 0 }
{
    base_wide::index(map[i])
}

// Where the record of action a stands.
pub fn place_of(map: &[u32], a: usize) -> usize
    requires { (length map.now ≡ Parts.WORDS) × (a < Limit.ACTIONS) }
    ensures { result ≡ get_or map.now (Parts.PLACE + a) 0 }
{
    number_at(map, map::PLACE + a)
}

// The number of the branches that stand before action a: its own begin there, and those of the action before it end.
pub fn branches_from(map: &[u32], a: usize) -> usize
    requires { (length map.now ≡ Parts.WORDS) × (a ≤ Limit.ACTIONS) }
    ensures { result ≡ get_or map.now (Parts.FROM + a) 0 }
{
    number_at(map, map::FROM + a)
}

// Where the claim of branch n stands.
pub fn claim_at(map: &[u32], n: usize) -> usize
    requires { (length map.now ≡ Parts.WORDS) × (n < Limit.BRANCHES) }
    ensures { result ≡ get_or map.now (Parts.CLAIM + n) 0 }
{
    number_at(map, map::CLAIM + n)
}
