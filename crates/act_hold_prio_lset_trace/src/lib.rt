// HOLD, PRIO, LSET and TRACE of the process on the floor, and the value of an action's expression.
#![tactic(auto)]

ghost use Rattle.std.specs.Prelude.{◌≡◌, drop};
ghost use Rattle.semantics.specs.Model.{HOLD, PRIO, TRACE, LSET};
ghost use Rattle.semantics.specs.Step.{hold, prio, set_local, trace};
ghost use Rattle.base_numbers.specs.Limit as Limit;
ghost use Rattle.base_numbers.specs.Row as Row;
ghost use Rattle.base_i32.specs.Code.{value_in};
ghost use Rattle.base_ordered.specs.Lines.{pad};
ghost use Rattle.row_work.specs.Work.{work_of};
ghost use Rattle.act_value.specs.Parts.{the_value};
ghost use Rattle.act_floor.specs.Acting.{Roomy, Stepped, SteppedQuietly};
ghost use Rattle.act_floor.specs.Running.{made};
ghost use Rattle.act_hold_prio_lset_trace.specs.Given.{Valued, worth, seeds_left, left, is_within, Given};

use act_floor::Went;
use base_i32::Value;
use base_numbers::{code, fault, limit, line, map, process, row};

// The highest code.
const HIGHEST: u32 = code::HIGHEST as u32;

// The value of the expression in `body`, for the process in place p; `seeds`, those of the state, move on by its draws.
fn evaluated<'a>(
    body: &'a [u8],
    map: &'a [u32],
    w: &'a [u64],
    p: usize,
    seeds: &'a mut [u64; limit::SAMPLERS],
) -> Value
    requires valued { Valued body.now map.now w.now p }
    requires seeds_value { seeds.old ≡ drop Row.SEEDS w.now }
    ensures value { (v : Valued body.now map.now w.now p)
        → result ≡ value_in (the_value (worth v)) }
    ensures seeds_after { (v : Valued body.now map.now w.now p)
        → seeds.new ≡ pad Limit.SAMPLERS (seeds_left v) }
{
    let clock = act_floor::clock_of(w) as u32;
    let from = row::FIRST_LOCALS + process::WORDS * p;
    let to = from + limit::LOCALS;
    act_value::evaluate(
        body,
        &w[row::GLOBALS..row::WAITS],
        &w[from..to],
        clock,
        &map[map::LOWEST..map::VALUES],
        &map[map::VALUES..map::WORDS],
        seeds,
    )
}

// The same, with the seeds in the work: they move on only where the value's code is one of low..high, so that a fault that the
// value leads to leaves them.
fn value_drawn<'a>(
    body: &'a [u8],
    map: &'a [u32],
    w: &'a mut [u64],
    p: usize,
    low: u32,
    high: u32,
) -> Value
    requires { Valued body.now map.now w.old p }
    ensures value { (v : Valued body.now map.now w.old p)
        → result ≡ value_in (the_value (worth v)) }
    ensures w_after { (v : Valued body.now map.now w.old p)
        → w.new ≡ work_of (left v (is_within low high result)) }
{
    let mut seeds = row_work::seeds_of(w);
    let value = evaluated(body, map, w, p, &mut seeds);
    if value.ok & (low <= value.code) & (value.code <= high) {
        row_work::keep_seeds(w, seeds);
    }
    value
}

// The same. Where the first seed is 0 there is no sampler, and no seed to copy: this saves a tenth of a step.
fn value_within<'a>(
    body: &'a [u8],
    map: &'a [u32],
    w: &'a mut [u64],
    p: usize,
    low: u32,
    high: u32,
) -> Value
    requires { Valued body.now map.now w.old p }
    ensures value { (v : Valued body.now map.now w.old p)
        → result ≡ value_in (the_value (worth v)) }
    ensures w_after { (v : Valued body.now map.now w.old p)
        → w.new ≡ work_of (left v (is_within low high result)) }
{
    if w[row::SEEDS] == 0 {
        let mut none = [0u64; limit::SAMPLERS];
        return evaluated(body, map, w, p, &mut none);
    }
    value_drawn(body, map, w, p, low, high)
}

// The value of the expression in `body`, for the process in place p. If it has one, its draws are made.
pub fn value_in<'a>(body: &'a [u8], map: &'a [u32], w: &'a mut [u64], p: usize) -> Value
    requires { Valued body.now map.now w.old p }
    ensures value { (v : Valued body.now map.now w.old p)
        → result ≡ value_in (the_value (worth v)) }
    ensures w_after { (v : Valued body.now map.now w.old p)
        → w.new ≡ work_of (left v result.ok) }
{
    value_within(body, map, w, p, 0, HIGHEST)
}

pub fn hold<'a>(body: &'a [u8], map: &'a [u32], w: &'a mut [u64], p: usize) -> Went
    requires { Given body.now map.now w.old p HOLD }
    ensures { (v : Given body.now map.now w.old p HOLD)
        → SteppedQuietly (made v.on.running (λ m s. hold m s p v.expression))
        result.fault result.lines w.old w.new }
{
    let clock = act_floor::clock_of(w);
    let latest = code::ZERO + (limit::LATEST - clock) as u32;
    let value = value_within(body, map, w, p, code::ZERO, latest);
    if !value.ok {
        return Went {
            fault: fault::SUM,
            lines: 0,
        };
    }
    if value.code < code::ZERO {
        return Went {
            fault: fault::BACK,
            lines: 0,
        };
    }
    if latest < value.code {
        return Went {
            fault: fault::LATE,
            lines: 0,
        };
    }
    row_process::past(w, p);
    act_floor::leave_floor(w);
    row_lists::wake(w, clock + (value.code - code::ZERO) as u64, p);
    Went { fault: 0, lines: 0 }
}

pub fn prio<'a>(body: &'a [u8], map: &'a [u32], w: &'a mut [u64], p: usize) -> Went
    requires { Given body.now map.now w.old p PRIO }
    ensures { (v : Given body.now map.now w.old p PRIO)
        → SteppedQuietly (made v.on.running (λ m s. prio m s p v.expression))
        result.fault result.lines w.old w.new }
{
    let value = value_in(body, map, w, p);
    if !value.ok {
        return Went {
            fault: fault::SUM,
            lines: 0,
        };
    }
    let priority = base_i32::greater(code::LOWEST, value.code);
    row_process::past(w, p);
    row_process::set_priority(w, p, priority as u64);
    Went { fault: 0, lines: 0 }
}

pub fn set_local<'a>(body: &'a [u8], i: usize, map: &'a [u32], w: &'a mut [u64], p: usize) -> Went
    requires { Given body.now map.now w.old p (LSET i) }
    ensures { (v : Given body.now map.now w.old p (LSET i))
        → SteppedQuietly (made v.on.running (λ m s. set_local m s p i v.expression))
        result.fault result.lines w.old w.new }
{
    let value = value_in(body, map, w, p);
    if !value.ok {
        return Went {
            fault: fault::SUM,
            lines: 0,
        };
    }
    row_process::past(w, p);
    row_process::set_local(w, p, i, value.code as u64);
    Went { fault: 0, lines: 0 }
}

pub fn trace<'a>(
    body: &'a [u8],
    map: &'a [u32],
    w: &'a mut [u64],
    out: &'a mut [u8],
    at: usize,
    p: usize,
) -> Went
    requires given { Given body.now map.now w.old p TRACE }
    requires roomy { Roomy at out.old }
    ensures { (v : Given body.now map.now w.old p TRACE)
        → Stepped (made v.on.running (λ m s. trace m s p v.expression))
        result.fault result.lines w.old w.new at out.old out.new }
{
    let value = value_in(body, map, w, p);
    if !value.ok {
        return Went {
            fault: fault::SUM,
            lines: 0,
        };
    }
    act_floor::note(w, p, out, at, line::TRACED, value.code);
    row_process::past(w, p);
    Went { fault: 0, lines: 1 }
}
