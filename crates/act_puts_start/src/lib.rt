// What a process on the floor hands over: shares to one that it starts, and slaves that it lets go.
#![tactic(auto)]

ghost use Rattle.std.specs.Prelude.{◌≡◌, [], ◌∷◌, ◌&&◌, ◌+◌, ◌*◌, ◌≤◌, ◌<◌, ltb, length, get_or, pos};
ghost use Rattle.semantics.specs.Numbers as No;
ghost use Rattle.semantics.specs.Model.{PUTS};
ghost use Rattle.semantics.specs.Words.{all};
ghost use Rattle.semantics.specs.Bytes.{u32};
ghost use Rattle.semantics.specs.Record.{share_of};
ghost use Rattle.semantics.specs.State.{process, living, wake};
ghost use Rattle.semantics.specs.Walk.{line};
ghost use Rattle.semantics.specs.Step.{free_all, puts, start};
ghost use Rattle.base_numbers.specs.Map as Map;
ghost use Rattle.base_numbers.specs.Limit as Limit;
ghost use Rattle.base_numbers.specs.Line as Line;
ghost use Rattle.base_numbers.specs.Byte as Byte;
ghost use Rattle.base_journal.specs.Wrote.{wrote_at};
ghost use Rattle.row_work.specs.Work.{work_of, Doing, Done};
ghost use Rattle.row_process.specs.Process.{Shown, Lives};
ghost use Rattle.row_lists.specs.Lists.{Any};
ghost use Rattle.act_floor.specs.Acting.{Roomy, Stepped};
ghost use Rattle.act_floor.specs.Running.{On, made, runs};
ghost use Rattle.act_puts_start.specs.Freeing.{Freeing};
ghost use Rattle.act_puts_start.specs.Shares.{has, Offering, Moves, moves, Moving};
ghost use Rattle.act_puts_start.specs.Hands.{Starting};

use act_floor::Went;
use base_numbers::{code, fault, limit, line, map, part, row};

// Living processes at most, as they are counted.
const PLACES: u32 = limit::PLACES as u32;

// ---- what is read

// The last number given.
fn last_of(w: &[u64]) -> u64
    requires { Shown w.now Any }
    ensures { ((v : Shown w.now Any) → result ≡ v.is.last) × (result ≤ No.last_number) }
{
    w[row::LAST]
}

// ---- shares

// Whether the process in place p has the share whose 6 bytes are i.
fn has_share<'a>(i: &'a [u8], w: &'a [u64], p: usize) -> bool
    requires { Shown w.now (λ s. (p < No.places) × ((share_of i.now).of < length (process s p).held))
        × (6 ≤ length i.now) }
    ensures { (v : Shown w.now
        (λ s. (p < No.places) × ((share_of i.now).of < length (process s p).held)))
        → result ≡ has (process v.is p) (share_of i.now) }
{
    let of = file_fields::u16_at(i, 0) as usize;
    let amount = base_wide::wide(file_fields::u32_at(i, 2));
    amount <= row_process::held_of(w, p, of)
}

// Whether it has all shares of `body`.
fn has_shares<'a>(body: &'a [u8], w: &'a [u64], p: usize) -> bool
    requires { Offering body.now w.now p }
    ensures { (v : Offering body.now w.now p)
        → result ≡ all (has (process v.shown.is p)) v.shares }
{
    let mut left = file_fields::u16_at(body, 6);
    let mut rest = &body[8..];
    while 0 < left {
        if !has_share(&rest[..part::SHARE_BYTES], w, p) {
            return false;
        }
        rest = &rest[part::SHARE_BYTES..];
        left = left - 1;
    }
    true
}

// The process in place p gives that share away, or takes it up.
fn move_share<'a>(i: &'a [u8], w: &'a mut [u64], p: usize, away: bool)
    requires { Doing w.old (Moves p away (share_of i.now)) (moves p away (share_of i.now)) × (6 ≤ length i.now) }
    ensures { Done w.old (Moves p away (share_of i.now)) (moves p away (share_of i.now))
        w.new }
{
    let of = file_fields::u16_at(i, 0) as usize;
    let amount = base_wide::wide(file_fields::u32_at(i, 2));
    if away {
        row_process::give_back(w, p, of, amount);
        return;
    }
    row_process::take_up(w, p, of, amount);
}

// All shares of `body`.
fn move_shares<'a>(body: &'a [u8], w: &'a mut [u64], p: usize, away: bool)
    requires { Moving body.now w.old p away }
    ensures { (v : Moving body.now w.old p away) → w.new ≡ work_of v.goal }
{
    let mut left = file_fields::u16_at(body, 6);
    let mut rest = &body[8..];
    while 0 < left {
        move_share(&rest[..part::SHARE_BYTES], w, p, away);
        rest = &rest[part::SHARE_BYTES..];
        left = left - 1;
    }
}

// ---- START

// When the new process enters.
fn time_of<'a>(body: &'a [u8], w: &'a [u64]) -> u64
    requires { Shown w.now Any × (6 ≤ length body.now) }
    ensures { (v : Shown w.now Any) → result ≡ v.is.clock + u32 body.now 2 }
{
    act_floor::clock_of(w) + base_wide::wide(file_fields::u32_at(body, 2))
}

// Whether one more can begin: there is a place and a number for it.
fn can_begin(w: &[u64]) -> bool
    requires { Shown w.now Any }
    ensures { (v : Shown w.now Any)
        → result ≡ (ltb (living v.is) No.places && ltb v.is.last No.last_number) }
{
    (base_places::living_count(w[row::LIVING]) < PLACES) & (last_of(w) < limit::LAST_NUMBER)
}

// The line of the one that begins next.
fn note_start<'a>(w: &'a [u64], out: &'a mut [u8], at: usize, class: u32)
    requires { Shown w.now Any × ((Line.BYTES * at + Line.BYTES ≤ length out.old) × (class < Byte.TWO)) }
    ensures { (v : Shown w.now Any) → out.new
        ≡ wrote_at at (line v.is (v.is.last + 1) 1 (pos class) ∷ []) out.old }
{
    let clock = act_floor::clock_of(w) as u32;
    let number = last_of(w) as u32 + 1;
    base_journal::write_line(out, at, line::STARTED, clock, number, code::ZERO + class);
}

// The body block of a class.
fn body_of(map: &[u32], class: u32) -> u64
    requires { Map.BODY + class < length map.now }
    ensures { result ≡ get_or map.now (Map.BODY + class) 0 }
{
    base_wide::wide(map[map::BODY + class as usize])
}

pub fn start<'a>(
    body: &'a [u8],
    map: &'a [u32],
    w: &'a mut [u64],
    out: &'a mut [u8],
    at: usize,
    p: usize,
) -> Went
    requires starting { Starting body.now map.now w.old p }
    requires roomy { Roomy at out.old }
    ensures { (v : Starting body.now map.now w.old p)
        → Stepped (made (runs v.acting.running) (λ m s. start m s p v.class v.offset v.shares))
        result.fault result.lines w.old w.new at out.old out.new }
{
    let time = time_of(body, w);
    if limit::LATEST < time {
        return Went {
            fault: fault::LATE,
            lines: 0,
        };
    }
    if !has_shares(body, w, p) {
        return Went {
            fault: fault::HELD,
            lines: 0,
        };
    }
    if !can_begin(w) {
        return Went {
            fault: fault::FULL,
            lines: 0,
        };
    }
    let class = file_fields::u16_at(body, 0);
    note_start(w, out, at, class);
    move_shares(body, w, p, true);
    row_process::past(w, p);
    let block = body_of(map, class);
    let place = row_begin_end::begin(w, block, time);
    move_shares(body, w, place, false);
    Went { fault: 0, lines: 1 }
}

// ---- PUTS

// The one in place r, which was a slave of sync i, enters the event list now.
fn free_one<'a>(w: &'a mut [u64], out: &'a mut [u8], at: usize, i: u64, r: usize)
    requires { Doing w.old (Lives r) (λ s. wake s.clock r s)
        × ((Line.BYTES * at + Line.BYTES ≤ length out.old) × (i < Limit.THINGS)) }
    ensures done { Done w.old (Lives r) (λ s. wake s.clock r s) w.new }
    ensures out_after { (d : Doing w.old (Lives r) (λ s. wake s.clock r s)) → out.new
        ≡ wrote_at at (line d.is (process d.is r).number 8 (pos i) ∷ []) out.old }
{
    let clock = act_floor::clock_of(w);
    let number = row_process::number_of(w, r) as u32;
    base_journal::write_line(
        out,
        at,
        line::FREED,
        clock as u32,
        number,
        code::ZERO + i as u32,
    );
    row_lists::wake(w, clock, r);
}

// The first n of `places`, one after the other.
fn free_all<'a>(w: &'a mut [u64], out: &'a mut [u8], at: usize, i: u64, places: &'a [u64], n: usize)
    requires freeing { Freeing w.old i places.now n }
    requires n_in_bounds { Line.BYTES * (at + n) ≤ length out.old }
    ensures { (v : Freeing w.old i places.now n)
        → (w.new ≡ work_of (free_all i v.gone v.run.is).state)
        × (out.new ≡ wrote_at at (free_all i v.gone v.run.is).lines out.old) }
{
    let mut k = 0;
    while k < n {
        let r = places[k] as usize;
        free_one(w, out, at + k, i, r);
        k += 1;
    }
}

pub fn puts<'a>(w: &'a mut [u64], out: &'a mut [u8], at: usize, p: usize, i: u64, n: usize) -> Went
    requires on { On w.old p (PUTS i n) }
    requires roomy { Roomy at out.old }
    ensures { (v : On w.old p (PUTS i n)) → Stepped (made v.running (λ m s. puts m s p i n))
        result.fault result.lines w.old w.new at out.old out.new }
{
    if row_slaves::owned(w, p, i) < n {
        return Went {
            fault: fault::OWNED,
            lines: 0,
        };
    }
    let mut places = [0u64; limit::PLACES];
    row_slaves::release(w, p, i, n, &mut places);
    row_process::past(w, p);
    free_all(w, out, at, i, &places, n);
    Went { fault: 0, lines: n }
}
