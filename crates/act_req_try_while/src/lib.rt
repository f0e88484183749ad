// REQ, TRY and WHILE of the process on the floor: it takes a branch, or is blocked and says why, or passes on.
#![tactic(auto)]

ghost use Rattle.std.specs.Prelude.{◌≡◌};
ghost use Rattle.semantics.specs.Model.{WHILE};
ghost use Rattle.semantics.specs.Step.{request, while};
ghost use Rattle.act_floor.specs.Acting.{Roomy, Stepped};
ghost use Rattle.act_req_try_while.specs.Asks.{Requesting, Looping, Branching, Branched, state, made, taken};
ghost use Rattle.act_req_try_while.specs.Asks.{Few, code_said};

use act_floor::Went;
use base_numbers::{code, line};
use row_claim::{Choice, Reason};

// What a line of kind 3 says of why the process waits, as its code.
fn said(why: Reason) -> u32
    requires { Few why }
    ensures { result ≡ code_said why }
{
    match why {
        Reason::Barred => code::MINUS_ONE,
        Reason::Lacks(n) => code::ZERO + n,
    }
}

// The branch of action a that the process in place p may take is taken, if there is one: what was chosen.
fn take_branch<'a>(
    s: &'a [u8],
    map: &'a [u32],
    w: &'a mut [u64],
    out: &'a mut [u8],
    at: usize,
    p: usize,
    a: usize,
    enters: bool,
) -> Choice
    requires branching { Branching s.now map.now w.old p a enters }
    requires roomy { Roomy at out.old }
    ensures { (v : Branching s.now map.now w.old p a enters)
        → Branched (taken v.asked) result p (state v.asked) w.old w.new
        at out.old out.new }
{
    let ahead = row_lists::place_in_front(w, p);
    let chosen = row_grant::choice(s, map, w, a, ahead);
    let Choice::Goes(n) = chosen else {
        return chosen;
    };
    act_floor::note(w, p, out, at, line::GRANTED, code::ZERO + n as u32);
    let first = file_map::branches_from(map, a);
    row_grant::grant(s, map, w, p, first + n, enters);
    chosen
}

// REQ, or TRY, which enters a block.
pub fn request<'a>(
    s: &'a [u8],
    map: &'a [u32],
    w: &'a mut [u64],
    out: &'a mut [u8],
    at: usize,
    p: usize,
    a: usize,
    enters: bool,
) -> Went
    requires requesting { Requesting s.now map.now w.old p a enters }
    requires roomy { Roomy at out.old }
    ensures { (v : Requesting s.now map.now w.old p a enters)
        → Stepped (made v.asked (λ m s. request m s p v.action))
        result.fault result.lines w.old w.new at out.old out.new }
{
    let chosen = take_branch(s, map, w, out, at, p, a, enters);
    let Choice::Waits(why) = chosen else {
        return Went { fault: 0, lines: 1 };
    };
    let value = said(why);
    act_floor::note(w, p, out, at, line::BLOCKED, value);
    row_lists::join_blocked(w, p);
    act_floor::leave_floor(w);
    Went { fault: 0, lines: 1 }
}

// WHILE.
pub fn pass_or_enter<'a>(
    s: &'a [u8],
    map: &'a [u32],
    w: &'a mut [u64],
    out: &'a mut [u8],
    at: usize,
    p: usize,
    a: usize,
) -> Went
    requires looping { Looping s.now map.now w.old p a }
    requires roomy { Roomy at out.old }
    ensures { (v : Looping s.now map.now w.old p a)
        → Stepped (made v.asked (λ m s. while m s p (WHILE v.looped v.claim)))
        result.fault result.lines w.old w.new at out.old out.new }
{
    let chosen = take_branch(s, map, w, out, at, p, a, true);
    let Choice::Waits(_) = chosen else {
        return Went { fault: 0, lines: 1 };
    };
    row_process::past(w, p);
    Went { fault: 0, lines: 0 }
}
