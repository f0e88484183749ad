// SET and BECOME of the process on the floor, and the walk after them.
#![tactic(auto)]

ghost use Rattle.std.specs.Prelude.{◌≡◌, ◌<◌, length, set};
ghost use Rattle.semantics.specs.Model.{BECOME};
ghost use Rattle.semantics.specs.Step.{set_global, become};
ghost use Rattle.act_floor.specs.Acting.{Acting, Roomy, Stepped};
ghost use Rattle.act_set_become.specs.Setting.{Setting};

use act_floor::Went;
use base_numbers::{fault, line, row};

// The number at `at` becomes v.
fn set_at(w: &mut [u64], at: usize, v: u64)
    requires { at < length w.old }
    ensures { w.new ≡ set w.old at v }
{
    w[at] = v;
}

// The process on the floor waits as a slave for sync i.
pub fn become_slave<'a>(
    i: usize,
    s: &'a [u8],
    map: &'a [u32],
    w: &'a mut [u64],
    out: &'a mut [u8],
    at: usize,
    p: usize,
) -> Went
    requires acting { Acting s.now map.now w.old p (BECOME i) }
    requires roomy { Roomy at out.old }
    ensures { (v : Acting s.now map.now w.old p (BECOME i))
        → Stepped (become v.running.run.model v.running.run.is p i)
        result.fault result.lines w.old w.new at out.old out.new }
{
    let number = row_process::number_of(w, p);
    act_walk::note(w, out, at, line::WAITING_AS_SLAVE, number, i);
    row_process::past(w, p);
    act_floor::leave_floor(w);
    row_lists::join_waiting(w, i, p);
    let lines = act_walk::walk(s, map, w, out, at + 1);
    Went {
        fault: 0,
        lines: lines + 1,
    }
}

// Variable i becomes the value of the expression in `body`.
pub fn set_global<'a>(
    body: &'a [u8],
    i: usize,
    s: &'a [u8],
    map: &'a [u32],
    w: &'a mut [u64],
    out: &'a mut [u8],
    at: usize,
    p: usize,
) -> Went
    requires setting { Setting body.now s.now map.now w.old p i }
    requires roomy { Roomy at out.old }
    ensures { (v : Setting body.now s.now map.now w.old p i)
        → Stepped (set_global v.acting.running.run.model v.acting.running.run.is p i
        v.expression) result.fault result.lines
        w.old w.new at out.old out.new }
{
    let value = act_hold_prio_lset_trace::value_in(body, map, w, p);
    if !value.ok {
        return Went {
            fault: fault::SUM,
            lines: 0,
        };
    }
    row_process::past(w, p);
    set_at(w, row::GLOBALS + i, value.code as u64);
    let lines = act_walk::walk(s, map, w, out, at);
    Went {
        fault: 0,
        lines: lines,
    }
}
