// A run with a step limit and a lent journal, on the work that shows its state.
#![tactic(auto)]

ghost use Rattle.std.specs.Prelude.{◌≡◌, ◌+◌, ◌-◌, ◌*◌, ◌/◌, ◌≤◌, length};
ghost use Rattle.semantics.specs.Step.{step as step_of};
ghost use Rattle.semantics.specs.Run.{before, run as run_of};
ghost use Rattle.semantics.specs.Journal.{room_in};
ghost use Rattle.base_numbers.specs.Limit as Limit;
ghost use Rattle.base_numbers.specs.Line as Line;
ghost use Rattle.act_floor.specs.Acting.{Open, Going, Stepped};
ghost use Rattle.run_limit.specs.Halts.{Showing, may_go, halted_by};
ghost use Rattle.run_limit.specs.Fitted.{fitted};
ghost use Rattle.run_limit.specs.Ran.{answer_of, number_of, RanAs};

use act_floor::Went;
use base_numbers::{answer, fault, limit, line, row};

// The bytes of a step's lines, of which there are fewer than these.
const STEP_BYTES: usize = limit::STEP_LINES * line::BYTES;

#[derive(Clone, Copy)]
pub enum Answer {
    Closed,
    Idle,
    Limit,
    Fault(u32),
}

// The answer, the steps done in this call and the lines they wrote.
#[derive(Clone, Copy)]
pub struct Ran {
    pub answer: Answer,
    pub steps: u32,
    pub lines: usize,
}

// The number of an answer.
pub fn number_of(told: Answer) -> u32
    ensures { result ≡ number_of (answer_of told) }
{
    match told {
        Answer::Closed => answer::CLOSED,
        Answer::Idle => answer::IDLE,
        Answer::Limit => answer::LIMIT,
        Answer::Fault(number) => number,
    }
}

// Whether there is a step to make: the run is not closed, and somebody has the floor or is in the event list.
fn goes_on(w: &[u64]) -> bool
    requires { Showing w.now }
    ensures { (v : Showing w.now) → result ≡ may_go (before v.is) }
{
    (w[row::CLOSED] == 0) & !((w[row::FLOOR] == 0) & (w[row::EVENTS] == 0))
}

// The answer where no further step is made.
fn halted(w: &[u64]) -> Answer
    requires { Showing w.now }
    ensures { (v : Showing w.now) → answer_of result ≡ halted_by (before v.is) }
{
    if w[row::CLOSED] != 0 {
        return Answer::Closed;
    }
    if (w[row::FLOOR] == 0) & (w[row::EVENTS] == 0) {
        return Answer::Idle;
    }
    Answer::Limit
}

// A step where there is room for `left` lines, which may be too few: it is made aside, and undone where its lines don't fit.
fn careful<'a>(
    s: &'a [u8],
    map: &'a [u32],
    w: &'a mut [u64],
    journal: &'a mut [u8],
    at: usize,
    left: usize,
) -> Went
    requires going { Going s.now map.now w.old }
    requires left_in_bounds { (Line.BYTES * (at + left) ≤ length journal.old) × (left ≤ Limit.STEP_LINES) }
    ensures { (v : Going s.now map.now w.old) →
        Stepped (fitted left (step_of v.running.run.model v.running.run.is)) result.fault result.lines
        w.old w.new at journal.old journal.new }
{
    let mut kept = [0u64; row::WORDS];
    row_work::copy_words(w, &mut kept);
    let mut aside = [0u8; STEP_BYTES];
    let went = act_step::step(s, map, w, &mut aside, 0);
    let lines = went.lines;
    if left < lines {
        row_work::copy_words(&kept, w);
        return Went {
            fault: fault::JOURNAL,
            lines: 0,
        };
    }
    let size = line::BYTES * lines;
    let start = line::BYTES * at;
    let end = start + size;
    journal[start..end].copy_from_slice(&aside[..size]);
    went
}

// A step, made only if its lines fit into the journal behind the first `at`.
fn advance<'a>(
    s: &'a [u8],
    map: &'a [u32],
    w: &'a mut [u64],
    journal: &'a mut [u8],
    at: usize,
) -> Went
    requires going { Going s.now map.now w.old }
    requires at_in_bounds { Line.BYTES * at ≤ length journal.old }
    ensures { (v : Going s.now map.now w.old) →
        Stepped (fitted (length journal.old / Line.BYTES - at) (step_of v.running.run.model v.running.run.is))
        result.fault result.lines w.old w.new at journal.old journal.new }
{
    let left = journal.len() / line::BYTES - at;
    if left < limit::STEP_LINES {
        return careful(s, map, w, journal, at, left);
    }
    act_step::step(s, map, w, journal, at)
}

// At most `limit` steps, with their lines written into the journal.
pub fn run<'a>(
    s: &'a [u8],
    map: &'a [u32],
    w: &'a mut [u64],
    limit: u32,
    journal: &'a mut [u8],
) -> Ran
    requires { Open s.now map.now w.old }
    ensures { (v : Open s.now map.now w.old) →
        RanAs (run_of v.run.model limit (room_in journal.old) v.run.is) result w.new
        journal.old journal.new }
{
    let mut steps: u32 = 0;
    let mut lines: usize = 0;
    while goes_on(w) & (steps != limit) {
        let went = advance(s, map, w, journal, lines);
        if went.fault != 0 {
            return Ran {
                answer: Answer::Fault(went.fault),
                steps,
                lines,
            };
        }
        steps += 1;
        lines += went.lines;
    }
    Ran {
        answer: halted(w),
        steps,
        lines,
    }
}
