// The end of a block: round again, back to the action that named it, or the end of the process.
#![tactic(auto)]

ghost use Rattle.std.specs.Prelude.{◌≡◌};
ghost use Rattle.semantics.specs.State.{process, with_frames};
ghost use Rattle.semantics.specs.Step.{comes_back, leave, ends, exhausted};
ghost use Rattle.row_work.specs.Work.{work_of};
ghost use Rattle.row_process.specs.Process.{changed};
ghost use Rattle.act_floor.specs.Acting.{Roomy, Stepped};
ghost use Rattle.act_floor.specs.Running.{made, runs};
ghost use Rattle.act_block_end.specs.Leaving.{Exhausted, Ends, Leaves, Back};

use act_floor::Went;
use base_numbers::{code, fault, kind, line, map};

// The class body is left.
fn ends<'a>(w: &'a mut [u64], out: &'a mut [u8], at: usize, p: usize) -> Went
    requires ends { Ends w.old p }
    requires roomy { Roomy at out.old }
    ensures { (v : Ends w.old p) → Stepped (made v.running (λ m s. ends m s p))
        result.fault result.lines w.old w.new at out.old out.new }
{
    if !row_process::holds_nothing(w, p) {
        return Went {
            fault: fault::OWING,
            lines: 0,
        };
    }
    act_floor::note(w, p, out, at, line::ENDED, code::ZERO);
    row_begin_end::end(w, p);
    act_floor::leave_floor(w);
    Went { fault: 0, lines: 1 }
}

// The action where the process stands is a WHILE.
fn at_while<'a>(s: &'a [u8], map: &'a [u32], w: &'a [u64], p: usize) -> bool
    requires { Back s.now map.now w.now p }
    ensures { (v : Back s.now map.now w.now p) → result ≡ comes_back v.action }
{
    let first = file_map::number_at(map, row_process::block_at(w, p));
    let action = first + row_process::standing_at(w, p);
    let place = file_map::number_at(map, map::PLACE + action);
    file_fields::u16_at(s, place + 2) == kind::WHILE
}

// The innermost block is left, back to the action that named it; then past that, unless it is met again.
fn leave<'a>(s: &'a [u8], map: &'a [u32], w: &'a mut [u64], p: usize)
    requires { Leaves s.now map.now w.old p }
    ensures { (v : Leaves s.now map.now w.old p)
        → w.new
        ≡ work_of (changed p (λ q. with_frames q (leave v.running.run.model v.around)) v.running.run.is) }
{
    row_process::leave_block(w, p, true);
    if at_while(s, map, w, p) {
        return;
    }
    row_process::past(w, p);
}

// One round less, and round again; or the block is left.
pub fn exhausted<'a>(
    s: &'a [u8],
    map: &'a [u32],
    w: &'a mut [u64],
    out: &'a mut [u8],
    at: usize,
    p: usize,
) -> Went
    requires exhausted { Exhausted s.now map.now w.old p }
    requires roomy { Roomy at out.old }
    ensures { (v : Exhausted s.now map.now w.old p)
        → Stepped (made (runs v.running) (λ m s. exhausted m s p (process s p).frames))
        result.fault result.lines w.old w.new at out.old out.new }
{
    if 1 < row_process::rounds_at(w, p) {
        row_process::go_round(w, p);
        return Went { fault: 0, lines: 0 };
    }
    if row_process::depth_of(w, p) == 1 {
        return ends(w, out, at, p);
    }
    leave(s, map, w, p);
    Went { fault: 0, lines: 0 }
}
