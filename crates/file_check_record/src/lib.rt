// Checks 2 to 9 on one record, by the table of kinds.
#![tactic(auto)]

ghost use Rattle.std.specs.Prelude.{◌≡◌, true, ◌+◌, ◌≤◌, ◌<◌, leb, length};
ghost use Rattle.semantics.specs.Words.{all};
ghost use Rattle.semantics.specs.Kinds as K;
ghost use Rattle.semantics.specs.Record.{sampler_of, sampler_valid, in_set, body_judged, row_of};
ghost use Rattle.semantics.specs.Decode.{placed, judged, field_known, inner_of, named};
ghost use Rattle.base_numbers.specs.Column as Column;
ghost use Rattle.file_check_record.specs.Rows.{SAMPLER_BYTES, column_of, number_at, Judged};
ghost use Rattle.file_check_record.specs.Refused.{number_of as refusal_number, outcome_of};

use base_numbers::{column, group, kind, limit, refusal};
use file_check_tails::Tail;

/// Why a model file is refused, in the order of the checks.
#[derive(Clone, Copy, PartialEq, Eq)]
pub enum Refusal {
    Short,
    Kind,
    Place,
    Many,
    Size,
    Value,
    Twice,
    Name,
    Order,
    Deep,
}

impl Refusal {
    /// Document 01's number of it, 1 to 10.
    pub fn number(self) -> u32
        ensures { result ≡ refusal_number self }
    {
        match self {
            Refusal::Short => refusal::SHORT,
            Refusal::Kind => refusal::KIND,
            Refusal::Place => refusal::PLACE,
            Refusal::Many => refusal::MANY,
            Refusal::Size => refusal::SIZE,
            Refusal::Value => refusal::VALUE,
            Refusal::Twice => refusal::TWICE,
            Refusal::Name => refusal::NAME,
            Refusal::Order => refusal::ORDER,
            Refusal::Deep => refusal::DEEP,
        }
    }
}

// A row for each kind from 0 to 30, in the columns of base_numbers::column: GROUP (0: no kind), MOST, HEAD, FIELD_SIZE (0:
// none, 12: a sampler's three together), FIELD_AT, LOWEST, HIGHEST, TAIL, NAMING (0: nothing, 17: a local), NAMING_AT.
const TABLE: [u32; column::KINDS * column::MANY] = [
    0, 0, 0, 0, 0, 0, 0, 0, 0, 0, 1, 32, 4, 4, 0, 0, 1000000, 0, 0, 0, // 1 RES
    2, 32, 4, 4, 0, 0, 1000000, 0, 0, 0, // 2 BIN
    3, 32, 0, 0, 0, 0, 0, 0, 0, 0, // 3 SYNC
    4, 32, 4, 0, 0, 0, 0, 0, 0, 0, // 4 VAR
    5, 64, 2, 0, 0, 0, 0, 0, 6, 0, // 5 CLASS
    6, 256, 0, 0, 0, 0, 0, 0, 0, 0, // 6 BLOCK
    7, 64, 6, 4, 2, 0, 1000000, 0, 5, 0, // 7 ENTITY
    8, 16, 12, 12, 0, 0, 0, 0, 0, 0, // 8 SAMPLER
    0, 0, 0, 0, 0, 0, 0, 0, 0, 0, 0, 0, 0, 0, 0, 0, 0, 0, 0, 0, 0, 0, 0, 0, 0, 0, 0, 0, 0, 0, 0, 0,
    0, 0, 0, 0, 0, 0, 0, 0, 0, 0, 0, 0, 0, 0, 0, 0, 0, 0, 0, 0, 0, 0, 0, 0, 0, 0, 0, 0, 0, 0, 0, 0,
    0, 0, 0, 0, 0, 0, 16, 1024, 0, 0, 0, 0, 0, 1, 0, 0, // 16 HOLD
    16, 1024, 0, 0, 0, 0, 0, 1, 0, 0, // 17 PRIO
    16, 1024, 2, 0, 0, 0, 0, 1, 4, 0, // 18 SET
    16, 1024, 2, 0, 0, 0, 0, 1, 17, 0, // 19 LSET
    16, 1024, 4, 0, 0, 0, 0, 0, 6, 2, // 20 DO
    16, 1024, 6, 4, 2, 1, 1000000, 0, 1, 0, // 21 PUTR
    16, 1024, 6, 4, 2, 1, 1000000, 0, 2, 0, // 22 PUTB
    16, 1024, 4, 2, 2, 1, 64, 0, 3, 0, // 23 PUTS
    16, 1024, 2, 0, 0, 0, 0, 0, 3, 0, // 24 BECOME
    16, 1024, 0, 0, 0, 0, 0, 3, 0, 0, // 25 REQ
    16, 1024, 0, 0, 0, 0, 0, 2, 0, 0, // 26 TRY
    16, 1024, 2, 0, 0, 0, 0, 3, 6, 0, // 27 WHILE
    16, 1024, 6, 4, 2, 0, 1000000, 4, 5, 0, // 28 START
    16, 1024, 0, 0, 0, 0, 0, 1, 0, 0, // 29 TRACE
    16, 1024, 0, 0, 0, 0, 0, 0, 0, 0, // 30 CLOSE
];

// The size of a sampler's fields, which are judged together.
const SAMPLER_BYTES: u32 = 12;

fn entry(kind: u32, column: usize) -> u32
    requires { column < Column.MANY }
    ensures { result ≡ column_of column (row_of kind) }
{
    let k = kind as usize;
    if k < column::KINDS {
        return TABLE[k * column::MANY + column];
    }
    0
}

// The group that a record is counted in.
pub fn group_of(kind: u32) -> usize
    ensures { (result ≡ (row_of kind).group) × (result ≤ K.ACTION) }
{
    entry(kind, column::GROUP) as usize
}

// ---- checks 5, 6 and 7

fn number_at(size: u32, bs: &[u8], at: usize) -> u32
    requires { at + size ≤ length bs.now }
    ensures { result ≡ number_at size bs.now at }
{
    if size == 4 {
        return file_fields::u32_at(bs, at);
    }
    if size == 2 {
        return file_fields::u16_at(bs, at);
    }
    0
}

// Whether a sampler's lowest value isn't above its highest, nor too far below it, and its seed is one.
fn sampler_valid(bs: &[u8]) -> bool
    requires { SAMPLER_BYTES ≤ length bs.now }
    ensures { result ≡ sampler_valid (sampler_of bs.now) }
{
    let lowest = base_i32::from_twos(file_fields::u32_at(bs, 0));
    let highest = base_i32::from_twos(file_fields::u32_at(bs, 4));
    let seed = file_fields::u32_at(bs, 8);
    if highest < lowest {
        return false;
    }
    (highest - lowest <= limit::SPREAD) & ((1 <= seed) & (seed <= limit::SEED))
}

fn in_set(kind: u32, bs: &[u8]) -> bool
    requires { (row_of kind).head ≤ length bs.now }
    ensures { result ≡ in_set (row_of kind).field bs.now }
{
    let size = entry(kind, column::FIELD_SIZE);
    if size == SAMPLER_BYTES {
        return sampler_valid(bs);
    }
    let at = entry(kind, column::FIELD_AT) as usize;
    let low = entry(kind, column::LOWEST);
    let high = entry(kind, column::HIGHEST);
    let v = number_at(size, bs, at);
    (low <= v) & (v <= high)
}

fn judge_body(kind: u32, bs: &[u8]) -> Result<(), Refusal>
    ensures { outcome_of result ≡ body_judged (row_of kind) bs.now }
{
    let head = entry(kind, column::HEAD) as usize;
    if bs.len() < head {
        return Err(Refusal::Size);
    }
    let tail = Tail::of(entry(kind, column::TAIL));
    let rest = &bs[head..];
    if !file_check_tails::tail_sized(tail, rest) {
        return Err(Refusal::Size);
    }
    if !(in_set(kind, bs) & file_check_tails::tail_valid(tail, rest)) {
        return Err(Refusal::Value);
    }
    if file_check_tails::tail_twice(tail, rest) {
        return Err(Refusal::Twice);
    }
    Ok(())
}

// ---- checks 2, 3 and 4, and then the body

fn in_place(group: u32, blocks: u32) -> bool
    ensures { result ≡ placed group blocks }
{
    if group == group::BLOCKS {
        return true;
    }
    if group == group::ACTIONS {
        return 0 < blocks;
    }
    blocks == 0
}

// Checks 2 to 7: Kind to Twice; `seen` has how many records of each group stand before.
pub fn judge(seen: [u32; group::MANY], kind: u32, bs: &[u8]) -> Result<(), Refusal>
    ensures { outcome_of result ≡ judged seen kind bs.now }
{
    let group = entry(kind, column::GROUP);
    if group == group::NONE {
        return Err(Refusal::Kind);
    }
    let g = group as usize;
    let blocks = seen[group::BLOCK];
    if !in_place(group, blocks) {
        return Err(Refusal::Place);
    }
    let most = entry(kind, column::MOST);
    let before = seen[g];
    if most <= before {
        return Err(Refusal::Many);
    }
    judge_body(kind, bs)
}

// ---- checks 8 and 9 on a record that has passed 2 to 7

fn field_known(n: [u32; group::MANY], kind: u32, bs: &[u8]) -> bool
    requires { (row_of kind).head ≤ length bs.now }
    ensures { result ≡ field_known n (row_of kind).naming bs.now }
{
    let of = entry(kind, column::NAMING) as usize;
    if of == 0 {
        return true;
    }
    let at = entry(kind, column::NAMING_AT) as usize;
    let number = file_fields::u16_at(bs, at);
    if of == group::LOCAL {
        return number < limit::LOCAL;
    }
    number < n[of]
}

fn later(own: u32, kind: u32, bs: &[u8]) -> bool
    requires { Judged (row_of kind) bs.now }
    ensures { result ≡ all (leb own) (inner_of ((row_of kind).says bs.now)) }
{
    match kind {
        kind::DO => own <= file_fields::u16_at(bs, 2),
        kind::TRY => file_check_tails::branches_later(own, bs),
        kind::WHILE => own <= file_fields::u16_at(bs, 0),
        _ => true,
    }
}

// Checks 8 and 9: Name or Order; `n` has how many records of each group the file has, and `own` how many BLOCKs stand before.
pub fn name(n: [u32; group::MANY], own: u32, kind: u32, bs: &[u8]) -> Result<(), Refusal>
    requires { Judged (row_of kind) bs.now }
    ensures { outcome_of result ≡ named n own kind bs.now }
{
    let head = entry(kind, column::HEAD) as usize;
    let tail = Tail::of(entry(kind, column::TAIL));
    if !(field_known(n, kind, bs) & file_check_tails::tail_known(tail, n, &bs[head..])) {
        return Err(Refusal::Name);
    }
    if !later(own, kind, bs) {
        return Err(Refusal::Order);
    }
    Ok(())
}
