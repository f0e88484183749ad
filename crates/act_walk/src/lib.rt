// Once down the blocked list.
#![tactic(auto)]

ghost use Rattle.std.specs.Prelude.{◌≡◌, [], ◌∷◌, ◌+◌, ◌*◌, ◌≤◌, ◌<◌, length, pos};
ghost use Rattle.semantics.specs.Numbers as No;
ghost use Rattle.semantics.specs.Walk.{line, walk};
ghost use Rattle.base_numbers.specs.Line as Line;
ghost use Rattle.base_numbers.specs.Byte as Byte;
ghost use Rattle.base_numbers.specs.Code as Code;
ghost use Rattle.base_journal.specs.Wrote.{wrote_at};
ghost use Rattle.row_work.specs.Work.{work_of};
ghost use Rattle.row_process.specs.Process.{Shown};
ghost use Rattle.row_lists.specs.Lists.{Any};
ghost use Rattle.act_walk.specs.Walking.{Walking, Walked, Visiting, chooses, went, Visited, Going, AtAction, entered_by};

use base_numbers::{code, kind, line, row};
use row_claim::Branch;

// ---- what is read

// How many are blocked.
fn blocked_count(w: &[u64]) -> usize
    requires { Shown w.now Any }
    ensures { ((v : Shown w.now Any) → result ≡ length v.is.blocked) × (result ≤ No.places) }
{
    w[row::BLOCKED] as usize
}

// Whether the branches of action a enter a block.
fn enters_at<'a>(s: &'a [u8], map: &'a [u32], a: usize) -> bool
    requires { AtAction s.now map.now a }
    ensures { (v : AtAction s.now map.now a) → result ≡ entered_by v.action }
{
    let place = file_map::place_of(map, a);
    file_fields::u16_at(s, place + 2) != kind::REQ
}

// ---- what is written

// A line of the process of this number, now.
pub fn note<'a>(w: &'a [u64], out: &'a mut [u8], at: usize, kind: u32, number: u64, value: usize)
    requires shown { Shown w.now Any × ((Line.BYTES * at + Line.BYTES ≤ length out.old) × (kind < Byte.TWO)) }
    requires number_bound { (number < Byte.FOUR) × (value < Code.ZERO) }
    ensures { (v : Shown w.now Any) → out.new
        ≡ wrote_at at (line v.is number kind (pos value) ∷ []) out.old }
{
    let clock = act_floor::clock_of(w) as u32;
    base_journal::write_line(
        out,
        at,
        kind,
        clock,
        number as u32,
        code::ZERO + value as u32,
    );
}

// ---- the walk

// The blocked one at k, in place p, takes the n-th branch of the map and enters the event list now.
fn release<'a>(
    s: &'a [u8],
    map: &'a [u32],
    w: &'a mut [u64],
    k: usize,
    p: usize,
    n: usize,
    enters: bool,
)
    requires { Going s.now map.now w.old k p n enters }
    ensures { (v : Going s.now map.now w.old k p n enters)
        → w.new ≡ work_of (went k v.offer v.visiting.walking.run.is) }
{
    let clock = act_floor::clock_of(w);
    row_lists::unblock(w, k);
    row_grant::grant(s, map, w, p, n, enters);
    row_lists::wake(w, clock, p);
}

// The blocked one at k goes if it can: how many lines were written.
fn visit<'a>(
    s: &'a [u8],
    map: &'a [u32],
    w: &'a mut [u64],
    out: &'a mut [u8],
    at: usize,
    k: usize,
) -> usize
    requires visiting { Visiting s.now map.now w.old k }
    requires at_in_bounds { Line.BYTES * at + Line.BYTES ≤ length out.old }
    ensures { ((v : Visiting s.now map.now w.old k)
        → Visited v.walking.run.is k (chooses v.walking.run.model v.walking.run.is k) result
        w.old w.new at out.old out.new) × (result ≤ 1) }
{
    let place = row_lists::blocked_at(w, k);
    let action = row_grant::action_at(map, w, place);
    let chosen = row_grant::branch(s, map, w, action, k);
    let Branch::Goes(which) = chosen else {
        return 0;
    };
    let number = row_process::number_of(w, place);
    note(w, out, at, line::GRANTED, number, which);
    let first = file_map::branches_from(map, action);
    let enters = enters_at(s, map, action);
    release(s, map, w, k, place, first + which, enters);
    1
}

// Once down the blocked list: how many lines were written. One that goes leaves its place in the list to the next.
pub fn walk<'a>(
    s: &'a [u8],
    map: &'a [u32],
    w: &'a mut [u64],
    out: &'a mut [u8],
    at: usize,
) -> usize
    requires walking { Walking s.now map.now w.old }
    requires at_in_bounds { Line.BYTES * (at + No.places) ≤ length out.old }
    ensures { ((v : Walking s.now map.now w.old)
        → Walked (walk v.run.model v.run.is) result w.new at out.old out.new)
        × (result ≤ No.places) }
{
    let mut left = blocked_count(w);
    let mut k = 0;
    let mut wrote = 0;
    while 0 < left {
        let went = visit(s, map, w, out, at + wrote, k);
        wrote = wrote + went;
        k = k + (1 - went);
        left = left - 1;
    }
    wrote
}
