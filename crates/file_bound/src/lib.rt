// The bound of a model file: from any bytes to the refusal, NONE, OVER or the number.
#![tactic(auto)]

ghost use Rattle.std.specs.Prelude.{◌≡◌, ◌+◌, ◌≤◌, ◌<◌, eqb, length, get_or, if◌then◌else◌};
ghost use Rattle.semantics.specs.Bytes.{u16, records_from};
ghost use Rattle.semantics.specs.Decode.{gather};
ghost use Rattle.semantics.specs.Bound.{bound as bound_of};
ghost use Rattle.semantics.specs.Desk.{bound_file};
ghost use Rattle.base_numbers.specs.Limit as Limit;
ghost use Rattle.file_weight.specs.Weigh.{cap, told, weighed};
ghost use Rattle.file_weight.specs.Named.{acts};
ghost use Rattle.file_bound.specs.Endable.{Endable, Bodied};
ghost use Rattle.file_bound.specs.Answer.{bounded_of};

use base_numbers::{kind, limit};
use file_check::Refused;
use file_depth::Blocks;
use file_weight::{Actions, Weights};

/// The bound of a model: NONE, OVER, or the number.
#[derive(Clone, Copy, PartialEq, Eq)]
pub enum Bounded {
    None,
    Over,
    At(u32),
}

// The body block of a class.
fn body_of(body: [u16; limit::CLASSES], class: u32) -> usize
    requires { class < Limit.CLASSES }
    ensures { result ≡ get_or body class 0 }
{
    let c = class as usize;
    body[c] as usize
}

// The weight of an ENTITY record's class; 0 of every other record.
fn entity_weight(kind: u32, bs: &[u8], body: [u16; limit::CLASSES], weights: &mut Weights) -> u64
    requires { kind ≡ 7 → Bodied bs.now body weights.old.actions.blocks.count }
    ensures actions { weights.new.actions ≡ weights.old.actions }
    ensures memo { weights.new.memo ≡ (if eqb kind 7 then weighed (acts weights.old.actions) weights.old.actions.blocks.count
        (get_or body (u16 bs.now 0) 0) weights.old.memo else weights.old.memo) }
    ensures value { result ≡ (if eqb kind 7 then told (acts weights.old.actions) weights.old.actions.blocks.count
        (get_or body (u16 bs.now 0) 0) else 0) }
{
    if kind == kind::ENTITY {
        let b = body_of(body, file_fields::u16_at(bs, 0));
        return weights.class(b);
    }
    0
}

// The sum over the ENTITY records, up to the least number that is OVER.
fn total(s: &[u8]) -> u64
    requires { Endable s.now }
    ensures { result ≡ cap (bound_of (gather (records_from 0 s.now)).model) }
{
    // An empty file has nothing to weigh, so no table is made for it.
    if s.is_empty() {
        return 0;
    }
    let i = file_index::index_of(s);
    let body = i.body;
    let g = file_index::graph_of(s, true, body);
    let first = i.first;
    let from = g.from;
    let goes = g.goes;
    let own = g.own;
    let times = g.times;
    let p = file_index::graph_of(s, false, body);
    let plain = p.from;
    let blocks = Blocks {
        first: &first,
        from: &from,
        goes: &goes,
        count: i.blocks,
    };
    let actions = Actions {
        blocks,
        own: &own,
        times: &times,
        plain: &plain,
    };
    let mut weights = Weights::new(actions);
    let mut w: u64 = 0;
    let mut at = file_reader::first(s);
    while at < s.len() {
        let x = file_reader::read(s, at);
        let end = file_reader::next(s, at);
        let v = entity_weight(x.kind, &s[at + 4..end], body, &mut weights);
        w = (w + v).min(limit::OVER);
        at = end;
    }
    w
}

/// The bound of an accepted file; else its refusal.
pub fn bound(s: &[u8]) -> Result<Bounded, Refused>
    ensures { bounded_of result ≡ bound_file s.now }
{
    file_check::check(s)?;
    let x = file_index::index_of(s);
    let body = x.body;
    if file_index::loops(s, body) {
        return Ok(Bounded::None);
    }
    let w = total(s);
    if w < limit::OVER {
        return Ok(Bounded::At(w as u32));
    }
    Ok(Bounded::Over)
}
