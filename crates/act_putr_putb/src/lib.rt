// PUTR and PUTB of the process on the floor: what it gives enters the event list as a return.
#![tactic(auto)]

ghost use Rattle.std.specs.Prelude.{◌≡◌};
ghost use Rattle.semantics.specs.Model.{PUTR, PUTB};
ghost use Rattle.semantics.specs.Step.{putr, putb};
ghost use Rattle.act_floor.specs.Acting.{SteppedQuietly};
ghost use Rattle.act_floor.specs.Running.{On, made};

use act_floor::Went;
use base_numbers::{fault, limit};

pub fn putr(i: usize, n: u64, w: &mut [u64], p: usize) -> Went
    requires { On w.old p (PUTR i n) }
    ensures { (v : On w.old p (PUTR i n)) → SteppedQuietly (made v.running (λ m s. putr m s p i n))
        result.fault result.lines w.old w.new }
{
    if row_process::held_of(w, p, i) < n {
        return Went {
            fault: fault::HELD,
            lines: 0,
        };
    }
    if limit::RETURNS <= row_lists::returns(w) {
        return Went {
            fault: fault::NOTICES,
            lines: 0,
        };
    }
    let giver = row_process::number_of(w, p);
    row_process::past(w, p);
    row_process::give_back(w, p, i, n);
    row_lists::return_resource(w, i as u64, n, giver);
    Went { fault: 0, lines: 0 }
}

pub fn putb(i: usize, n: u64, w: &mut [u64], p: usize) -> Went
    requires { On w.old p (PUTB i n) }
    ensures { (v : On w.old p (PUTB i n)) → SteppedQuietly (made v.running (λ m s. putb m s p i n))
        result.fault result.lines w.old w.new }
{
    if limit::RETURNS <= row_lists::returns(w) {
        return Went {
            fault: fault::NOTICES,
            lines: 0,
        };
    }
    let giver = row_process::number_of(w, p);
    row_process::past(w, p);
    row_lists::return_bin(w, i as u64, n, giver);
    Went { fault: 0, lines: 0 }
}
