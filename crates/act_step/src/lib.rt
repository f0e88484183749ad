// One step: whoever has the floor does one thing; else the first of the event list takes it, or is a return that comes back.
#![tactic(auto)]

ghost use Rattle.std.specs.Prelude.{◌≡◌, ◌+◌, ◌≤◌, ◌<◌, length, get_or, set};
ghost use Rattle.semantics.specs.Kinds as K;
ghost use Rattle.semantics.specs.State.{held_by, with_floor};
ghost use Rattle.semantics.specs.Step.{moves, occurs, step};
ghost use Rattle.base_numbers.specs.Row as Row;
ghost use Rattle.act_floor.specs.Acting.{Going, Roomy, Stepped};
ghost use Rattle.act_step.specs.Steps.{Floored, Stands, Meets, MeetsAt, acted, doing, Waking, Occurring};

use act_floor::Went;
use base_numbers::{kind, notice, row};

// ---- what a process does, by the kind and the body of the record where it stands

// HOLD, PRIO, SET, LSET.
fn act_on_value<'a>(
    kind: u32,
    body: &'a [u8],
    s: &'a [u8],
    map: &'a [u32],
    w: &'a mut [u64],
    out: &'a mut [u8],
    at: usize,
    p: usize,
) -> Went
    requires meets { Meets body.now s.now map.now w.old p kind }
    requires kind_bound { (kind < K.DO) × Roomy at out.old }
    ensures { (v : Meets body.now s.now map.now w.old p kind)
        → Stepped (doing v) result.fault result.lines
        w.old w.new at out.old out.new }
{
    if kind == kind::HOLD {
        return act_hold_prio_lset_trace::hold(body, map, w, p);
    }
    if kind == kind::PRIO {
        return act_hold_prio_lset_trace::prio(body, map, w, p);
    }
    let i = file_fields::u16_at(body, 0) as usize;
    let rest = &body[2..];
    if kind == kind::SET {
        return act_set_become::set_global(rest, i, s, map, w, out, at, p);
    }
    act_hold_prio_lset_trace::set_local(rest, i, map, w, p)
}

// DO, PUTR, PUTB, PUTS, BECOME.
fn act_on_number<'a>(
    kind: u32,
    body: &'a [u8],
    s: &'a [u8],
    map: &'a [u32],
    w: &'a mut [u64],
    out: &'a mut [u8],
    at: usize,
    p: usize,
) -> Went
    requires meets { Meets body.now s.now map.now w.old p kind }
    requires le_kind { ((K.DO ≤ kind) × (kind < K.REQ)) × Roomy at out.old }
    ensures { (v : Meets body.now s.now map.now w.old p kind)
        → Stepped (doing v) result.fault result.lines
        w.old w.new at out.old out.new }
{
    let first = file_fields::u16_at(body, 0);
    if kind == kind::BECOME {
        return act_set_become::become_slave(first as usize, s, map, w, out, at, p);
    }
    if kind == kind::DO {
        let block = file_fields::u16_at(body, 2);
        return act_do_close::do_times(base_wide::wide(first), base_wide::wide(block), w, p);
    }
    if kind == kind::PUTS {
        let many = file_fields::u16_at(body, 2);
        return act_puts_start::puts(w, out, at, p, base_wide::wide(first), many as usize);
    }
    let amount = base_wide::wide(file_fields::u32_at(body, 2));
    if kind == kind::PUTR {
        return act_putr_putb::putr(first as usize, amount, w, p);
    }
    act_putr_putb::putb(first as usize, amount, w, p)
}

// REQ, TRY, WHILE, START, TRACE, CLOSE.
fn act_on_claim<'a>(
    kind: u32,
    body: &'a [u8],
    s: &'a [u8],
    map: &'a [u32],
    w: &'a mut [u64],
    out: &'a mut [u8],
    at: usize,
    p: usize,
    a: usize,
) -> Went
    requires meets_at { MeetsAt body.now s.now map.now w.old p kind a }
    requires le_kind { (K.REQ ≤ kind) × Roomy at out.old }
    ensures { (v : MeetsAt body.now s.now map.now w.old p kind a)
        → Stepped (doing v.meets) result.fault result.lines
        w.old w.new at out.old out.new }
{
    if kind == kind::REQ {
        return act_req_try_while::request(s, map, w, out, at, p, a, false);
    }
    if kind == kind::TRY {
        return act_req_try_while::request(s, map, w, out, at, p, a, true);
    }
    if kind == kind::WHILE {
        return act_req_try_while::pass_or_enter(s, map, w, out, at, p, a);
    }
    if kind == kind::START {
        return act_puts_start::start(body, map, w, out, at, p);
    }
    if kind == kind::TRACE {
        return act_hold_prio_lset_trace::trace(body, map, w, out, at, p);
    }
    act_do_close::close(w, out, at, p)
}

fn act<'a>(
    kind: u32,
    body: &'a [u8],
    s: &'a [u8],
    map: &'a [u32],
    w: &'a mut [u64],
    out: &'a mut [u8],
    at: usize,
    p: usize,
    a: usize,
) -> Went
    requires meets_at { MeetsAt body.now s.now map.now w.old p kind a }
    requires roomy { Roomy at out.old }
    ensures { (v : MeetsAt body.now s.now map.now w.old p kind a)
        → Stepped (doing v.meets) result.fault result.lines
        w.old w.new at out.old out.new }
{
    if kind < kind::DO {
        return act_on_value(kind, body, s, map, w, out, at, p);
    }
    if kind < kind::REQ {
        return act_on_number(kind, body, s, map, w, out, at, p);
    }
    act_on_claim(kind, body, s, map, w, out, at, p, a)
}

// The process in place p stands at action a of the map.
fn meets<'a>(
    s: &'a [u8],
    map: &'a [u32],
    w: &'a mut [u64],
    out: &'a mut [u8],
    at: usize,
    p: usize,
    a: usize,
) -> Went
    requires stands { Stands s.now map.now w.old p a }
    requires roomy { Roomy at out.old }
    ensures { (v : Stands s.now map.now w.old p a)
        → Stepped (acted v.asked.acting) result.fault result.lines
        w.old w.new at out.old out.new }
{
    let place = file_map::place_of(map, a);
    let kind = file_fields::u16_at(s, place + 2);
    let from = place + 4;
    let to = place + 2 + file_fields::u16_at(s, place) as usize;
    act(kind, &s[from..to], s, map, w, out, at, p, a)
}

// The process in place p has the floor and does one thing.
fn moves<'a>(
    s: &'a [u8],
    map: &'a [u32],
    w: &'a mut [u64],
    out: &'a mut [u8],
    at: usize,
    p: usize,
) -> Went
    requires floored { Floored s.now map.now w.old p }
    requires roomy { Roomy at out.old }
    ensures { (v : Floored s.now map.now w.old p)
        → Stepped (moves v.running.run.model v.running.run.is p) result.fault result.lines
        w.old w.new at out.old out.new }
{
    let block = row_process::block_at(w, p);
    let a = file_map::number_at(map, block) + row_process::standing_at(w, p);
    if file_map::number_at(map, block + 1) <= a {
        return act_block_end::exhausted(s, map, w, out, at, p);
    }
    meets(s, map, w, out, at, p, a)
}

// ---- the first of the event list

// The floor is had by the process in place f - 1; 0 for nobody.
fn set_floor(w: &mut [u64], f: u64)
    requires { length w.old ≡ Row.WORDS }
    ensures { w.new ≡ set w.old 3 f }
{
    w[row::FLOOR] = f;
}

// The process in place p takes the floor; where that faults nobody has it again.
fn wakes<'a>(
    s: &'a [u8],
    map: &'a [u32],
    w: &'a mut [u64],
    out: &'a mut [u8],
    at: usize,
    p: usize,
) -> Went
    requires waking { Waking s.now map.now w.old p }
    requires roomy { Roomy at out.old }
    ensures { (v : Waking s.now map.now w.old p)
        → Stepped (moves v.run.model (with_floor v.run.is (held_by p)) p) result.fault result.lines
        w.old w.new at out.old out.new }
{
    set_floor(w, p as u64 + 1);
    let went = moves(s, map, w, out, at, p);
    if went.fault != 0 {
        set_floor(w, 0);
    }
    went
}

// A notice, by its word, is out of the event list and does what it does.
fn occurs<'a>(
    s: &'a [u8],
    map: &'a [u32],
    w: &'a mut [u64],
    out: &'a mut [u8],
    at: usize,
    word: u64,
) -> Went
    requires occurring { Occurring s.now map.now w.old word }
    requires roomy { Roomy at out.old }
    ensures { (v : Occurring s.now map.now w.old word)
        → Stepped (occurs v.run.model v.run.is v.notice) result.fault result.lines
        w.old w.new at out.old out.new }
{
    let kind = base_ordered::kind_of(word);
    let i = base_ordered::number_of(word) as usize;
    if kind == notice::WAKES {
        return wakes(s, map, w, out, at, i);
    }
    let n = base_ordered::amount_of(word);
    let g = base_ordered::giver_of(word);
    if kind == notice::RESOURCE {
        return act_return::resource_back(i, n, g, s, map, w, out, at);
    }
    act_return::bin_back(i, n, g, s, map, w, out, at)
}

// Nobody has the floor: the first of the event list leaves it, and comes back where its step faults.
fn next<'a>(s: &'a [u8], map: &'a [u32], w: &'a mut [u64], out: &'a mut [u8], at: usize) -> Went
    requires going { Going s.now map.now w.old × (get_or w.old 3 0 ≡ 0) }
    requires roomy { Roomy at out.old }
    ensures { (v : Going s.now map.now w.old)
        → Stepped (step v.running.run.model v.running.run.is) result.fault result.lines
        w.old w.new at out.old out.new }
{
    let clock = w[row::CLOCK];
    let key = w[row::KEYS];
    let word = row_lists::take_first(w);
    let went = occurs(s, map, w, out, at, word);
    if went.fault != 0 {
        row_lists::put_back(w, clock, key, word);
    }
    went
}

pub fn step<'a>(s: &'a [u8], map: &'a [u32], w: &'a mut [u64], out: &'a mut [u8], at: usize) -> Went
    requires going { Going s.now map.now w.old }
    requires roomy { Roomy at out.old }
    ensures { (v : Going s.now map.now w.old)
        → Stepped (step v.running.run.model v.running.run.is) result.fault result.lines
        w.old w.new at out.old out.new }
{
    let floor = w[row::FLOOR];
    if floor == 0 {
        return next(s, map, w, out, at);
    }
    moves(s, map, w, out, at, (floor - 1) as usize)
}
