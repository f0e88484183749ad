// A fresh run of an accepted model file: all places are free, what is declared is written, and the ENTITY processes begin.
#![tactic(auto)]

ghost use Rattle.std.specs.Prelude.{◌≡◌, ◌+◌, ◌≤◌, length, replicate};
ghost use Rattle.semantics.specs.State.{bare, fresh};
ghost use Rattle.base_numbers.specs.Row as Row;
ghost use Rattle.file_index.specs.Index.{Judged, given, Wrote};
ghost use Rattle.row_work.specs.Work.{work_of, Doing, Done};
ghost use Rattle.run_fresh.specs.Fresh.{Loaded, vacant_work, amount_in, Declaring, Beginning, enters_by, Entering};

use base_numbers::{code, kind, limit, map, process, row};

// All places are free.
fn vacate_all(w: &mut [u64])
    requires { w.old ≡ replicate Row.WORDS 0 }
    ensures { w.new ≡ vacant_work }
{
    let mut p = limit::PLACES;
    while 0 < p {
        p -= 1;
        row_work::set_word(w, p, process::PRIORITY, code::ZERO_WORD);
    }
}

// What a RES, a BIN or a VAR declares, and the seed that a SAMPLER starts with; 0 of any other record.
fn amount(kind: u32, bs: &[u8]) -> u64
    requires { Judged kind bs.now }
    ensures { result ≡ amount_in kind bs.now }
{
    match kind {
        kind::RES | kind::BIN => file_fields::u32_at(bs, 0) as u64,
        kind::VAR => base_i32::from_twos(file_fields::u32_at(bs, 0)) as u64,
        kind::SAMPLER => file_fields::u32_at(bs, 8) as u64,
        _ => 0,
    }
}

// v written at n of the work, if `on`; and where the next is written.
fn noted(on: bool, v: u64, n: usize, w: &mut [u64]) -> usize
    requires { n + length (given on v) ≤ length w.old }
    ensures { Wrote n (given on v) w.old result w.new }
{
    if on {
        w[n] = v;
        return n + 1;
    }
    n
}

// What is declared is written.
fn declare(s: &[u8], w: &mut [u64])
    requires { Declaring s.now w.old }
    ensures { (d : Declaring s.now w.old) → w.new ≡ work_of (bare d.model) }
{
    let mut free = row::FREE;
    let mut bins = row::BINS;
    let mut vars = row::GLOBALS;
    let mut seeds = row::SEEDS;
    let mut at = file_reader::first(s);
    while at < s.len() {
        let x = file_reader::read(s, at);
        let kind = x.kind;
        let end = file_reader::next(s, at);
        let v = amount(kind, &s[at + 4..end]);
        free = noted(kind == kind::RES, v, free, w);
        bins = noted(kind == kind::BIN, v, bins, w);
        vars = noted(kind == kind::VAR, v, vars, w);
        seeds = noted(kind == kind::SAMPLER, v, seeds, w);
        at = end;
    }
}

// The process of an ENTITY begins; nothing does at any other record.
fn enter(w: &mut [u64], map: &[u32], kind: u32, bs: &[u8])
    requires { Doing w.old (Entering map.now kind bs.now) (λ s. enters_by map.now kind bs.now s) }
    ensures { Done w.old (Entering map.now kind bs.now)
        (λ s. enters_by map.now kind bs.now s) w.new }
{
    if kind == kind::ENTITY {
        let class = file_fields::u16_at(bs, 0) as usize;
        let t = file_fields::u32_at(bs, 2) as u64;
        let b = map[map::BODY + class] as u64;
        row_begin_end::begin(w, b, t);
    }
}

// The processes of all ENTITY records begin.
fn begin_all(s: &[u8], map: &[u32], w: &mut [u64])
    requires { Beginning s.now map.now w.old }
    ensures { (d : Beginning s.now map.now w.old) →
        w.new ≡ work_of (fresh d.model) }
{
    let mut at = file_reader::first(s);
    while at < s.len() {
        let x = file_reader::read(s, at);
        let kind = x.kind;
        let end = file_reader::next(s, at);
        enter(w, map, kind, &s[at + 4..end]);
        at = end;
    }
}

// The fresh run of the model file s, whose map is `map`, in a work that is all zeros.
pub fn fresh(s: &[u8], map: &[u32], w: &mut [u64])
    requires { Loaded s.now map.now w.old }
    ensures { (d : Loaded s.now map.now w.old) →
        w.new ≡ work_of (fresh d.model) }
{
    vacate_all(w);
    declare(s, w);
    begin_all(s, map, w);
}
