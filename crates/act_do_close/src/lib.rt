// DO and CLOSE of the process on the floor.
#![tactic(auto)]

ghost use Rattle.std.specs.Prelude.{◌≡◌};
ghost use Rattle.semantics.specs.Model.{DO, CLOSE};
ghost use Rattle.semantics.specs.State.{now_closed};
ghost use Rattle.semantics.specs.Step.{do_times, close};
ghost use Rattle.row_work.specs.Work.{Doing, Done};
ghost use Rattle.row_lists.specs.Lists.{Any};
ghost use Rattle.act_floor.specs.Acting.{Roomy, Stepped, SteppedQuietly};
ghost use Rattle.act_floor.specs.Running.{On, made};

use act_floor::Went;
use base_numbers::{code, line, row};

pub fn do_times(n: u64, b: u64, w: &mut [u64], p: usize) -> Went
    requires { On w.old p (DO n b) }
    ensures { (v : On w.old p (DO n b)) → SteppedQuietly (made v.running (λ m s. do_times m s p n b))
        result.fault result.lines w.old w.new }
{
    if n == 0 {
        row_process::past(w, p);
        return Went { fault: 0, lines: 0 };
    }
    row_process::into(w, p, n, b);
    Went { fault: 0, lines: 0 }
}

fn set_closed(w: &mut [u64])
    requires { Doing w.old Any now_closed }
    ensures { Done w.old Any now_closed w.new }
{
    w[row::CLOSED] = 1;
}

pub fn close<'a>(w: &'a mut [u64], out: &'a mut [u8], at: usize, p: usize) -> Went
    requires on { On w.old p CLOSE }
    requires roomy { Roomy at out.old }
    ensures { (v : On w.old p CLOSE) → Stepped (made v.running (λ m s. close m s p))
        result.fault result.lines w.old w.new at out.old out.new }
{
    act_floor::note(w, p, out, at, line::CLOSED, code::ZERO);
    row_process::past(w, p);
    set_closed(w);
    Went { fault: 0, lines: 1 }
}
