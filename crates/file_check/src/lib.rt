// Checks 1 to 10 of a model file: from any bytes to the number and the place of a refusal, or accepted.
#![tactic(auto)]

ghost use Rattle.std.specs.Prelude.{◌≡◌, ◌&&◌, ◌+◌, ◌≤◌, ◌<◌, length, eqb, ltb, if◌then◌else◌};
ghost use Rattle.semantics.specs.Bytes.{u16, records_from};
ghost use Rattle.semantics.specs.Decode.{first_pass, none_seen, opened as blocks_after, second_pass};
ghost use Rattle.semantics.specs.Decode.{gather, third_pass};
ghost use Rattle.semantics.specs.Desk.{check_file};
ghost use Rattle.file_index.specs.Index.{Readable};
ghost use Rattle.file_depth.specs.Named.{depths as depths_of, depth_measured};
ghost use Rattle.base_numbers.specs.Byte as Byte;
ghost use Rattle.file_check.specs.Check.{checked_of, passed_of, Named};

use base_numbers::{group, kind, limit};
use file_check_record::Refusal;
use file_depth::{Blocks, Depths};

// The blocks that nest at most, as a depth is told.
const DEPTH: u16 = limit::DEPTH as u16;

/// Why a model file is refused, and the byte place of the record at fault.
#[derive(Clone, Copy, PartialEq, Eq)]
pub struct Refused {
    pub refusal: Refusal,
    pub place: usize,
}

// Record by record: 1 to 7. If all pass, how many records of each group there are.
fn first_pass(s: &[u8]) -> Result<[u32; group::MANY], Refused>
    ensures { checked_of result ≡ first_pass none_seen (records_from 0 s.now) }
{
    let mut at = file_reader::first(s);
    let mut seen = [0u32; group::MANY];
    while at < s.len() {
        let x = file_reader::read(s, at);
        if !x.whole {
            return Err(Refused {
                refusal: Refusal::Short,
                place: at,
            });
        }
        let end = file_reader::next(s, at);
        file_check_record::judge(seen, x.kind, &s[at + 4..end]).map_err(|refusal| Refused {
            refusal,
            place: at,
        })?;
        let g = file_check_record::group_of(x.kind);
        seen[g] += 1;
        at = end;
    }
    Ok(seen)
}

// How many BLOCKs stand before the next record.
fn opened(own: u32, kind: u32) -> u32
    requires { own < Byte.TWO }
    ensures { (result ≡ blocks_after own kind) × (result ≤ own + 1) }
{
    if kind == kind::BLOCK { own + 1 } else { own }
}

// If all pass, record by record: 8 and 9; `n` has how many records of each group there are.
fn second_pass(s: &[u8], n: [u32; group::MANY]) -> Result<(), Refused>
    requires { Readable s.now }
    ensures { passed_of result ≡ second_pass n 0 (records_from 0 s.now) }
{
    let mut at = file_reader::first(s);
    let mut own: u32 = 0;
    while at < s.len() {
        let x = file_reader::read(s, at);
        let end = file_reader::next(s, at);
        file_check_record::name(n, own, x.kind, &s[at + 4..end]).map_err(|refusal| Refused {
            refusal,
            place: at,
        })?;
        own = opened(own, x.kind);
        at = end;
    }
    Ok(())
}

// Whether the record is a CLASS whose body nests over 8 blocks, itself included.
fn too_deep(kind: u32, bs: &[u8], depths: &mut Depths) -> bool
    requires { kind ≡ 5 → (2 ≤ length bs.now) × (u16 bs.now 0 < depths.old.blocks.count) }
    ensures blocks { depths.new.blocks ≡ depths.old.blocks }
    ensures memo { depths.new.memo ≡ (if eqb kind 5 then depth_measured depths.old.blocks (u16 bs.now 0)
        depths.old.memo else depths.old.memo) }
    ensures value { result ≡ (eqb kind 5 && ltb 8 (depths_of depths.old.blocks (u16 bs.now 0))) }
{
    if kind == kind::CLASS {
        let b = file_fields::u16_at(bs, 0) as usize;
        return DEPTH < depths.depth(b);
    }
    false
}

// Then class by class: 10.
fn third_pass(s: &[u8]) -> Result<(), Refused>
    requires { Named s.now }
    ensures { passed_of result ≡ third_pass (gather (records_from 0 s.now)).model (records_from 0 s.now) }
{
    let i = file_index::index_of(s);
    let body = i.body;
    let g = file_index::graph_of(s, false, body);
    let first = i.first;
    let from = g.from;
    let goes = g.goes;
    let blocks = Blocks {
        first: &first,
        from: &from,
        goes: &goes,
        count: i.blocks,
    };
    let mut depths = Depths::new(blocks);
    let mut at = file_reader::first(s);
    while at < s.len() {
        let x = file_reader::read(s, at);
        let end = file_reader::next(s, at);
        if too_deep(x.kind, &s[at + 4..end], &mut depths) {
            return Err(Refused {
                refusal: Refusal::Deep,
                place: at,
            });
        }
        at = end;
    }
    Ok(())
}

/// The checks in their order; over 65,535 bytes are 4 at place 0, first of all.
pub fn check(s: &[u8]) -> Result<(), Refused>
    ensures { passed_of result ≡ check_file s.now }
{
    if limit::FILE < s.len() {
        return Err(Refused {
            refusal: Refusal::Many,
            place: 0,
        });
    }
    let seen = first_pass(s)?;
    second_pass(s, seen)?;
    third_pass(s)
}
