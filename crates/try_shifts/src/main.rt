// Opens a run of the model on standard input, moves it on in uneven calls, as a desk does, and prints what `plan` prints of it.
//
// The limits go round 1, 2, 3, 5, 8, 13, 21, 34, and the journal has room for 2 lines, the most that a step of the examples
// writes: so calls end by LIMIT and by 30. After each of them its lines are printed, the journal is empty again and the run goes
// on. A call that makes no step is the last: if it answers 30, an empty journal has no room for the next step. The model of
// `stdin` takes 50 calls: fault 30 is answered thirty times, LIMIT nineteen times, and then IDLE.
#![tactic(auto)]

ghost use Rattle.std.specs.Prelude.{◌*◌, ◌/◌, ◌≤◌, length};
ghost use Rattle.base_numbers.specs.Line as Line;

use arrayvec::ArrayString;
use base_numbers::{fault, limit, line};
use file_bound::Bounded;
use row_struct::State;
use run_by_value::Moved;
use run_limit::Answer;
use std::io;
use std::io::Write;

// The lines that the journal has room for, its bytes, and those of the lines as text.
const LINES: usize = 2;

const JOURNAL: usize = LINES * line::BYTES;

const TEXT: usize = LINES * line::TEXT;

// The bound of the model file s, which is not refused.
fn bound_of(s: &[u8]) -> Bounded {
    file_bound::bound(s).unwrap_or(Bounded::Over)
}

// The limit that follows this one.
fn next_limit(limit: u32) -> u32 {
    match limit {
        1 => 2,
        2 => 3,
        3 => 5,
        5 => 8,
        8 => 13,
        13 => 21,
        21 => 34,
        _ => 1,
    }
}

// Whether a run goes on behind this answer: its limit was met, or the journal had no room.
fn goes_on(answer: Answer) -> bool {
    match answer {
        Answer::Limit => true,
        Answer::Fault(number) => number == fault::JOURNAL,
        _ => false,
    }
}

// One call into an empty journal, whose lines are the text afterwards.
fn one_shift<'a, const N: usize>(
    s: &'a [u8],
    run: State,
    limit: u32,
    journal: &'a mut [u8],
    text: &'a mut ArrayString<N>,
) -> Moved
    requires { Line.TEXT * (length journal.old / Line.BYTES) ≤ N }
    ensures { result.steps ≤ limit }
{
    let moved = run_lent::moved_on(s, run, limit, journal);
    plan_text::lines(journal, moved.lines, text);
    moved
}

// Moves the run on until it has ended or made 1,000,000 steps, and prints its lines and its last line.
fn print_run<W: Write>(s: &[u8], opened: State, writer: &mut W) -> io::Result<()> {
    let mut journal = [0u8; JOURNAL];
    let mut text = ArrayString::<TEXT>::new();
    let mut run = opened;
    let mut steps: u32 = 0;
    let mut answer = Answer::Limit;
    let mut limit: u32 = 1;
    while steps < limit::PLAN_STEPS {
        let most = limit.min(limit::PLAN_STEPS - steps);
        let moved = one_shift(s, run, most, &mut journal, &mut text);
        writer.write_all(text.as_str().as_bytes())?;
        run = moved.state;
        steps += moved.steps;
        answer = moved.answer;
        limit = next_limit(limit);
        if (moved.steps == 0) | !goes_on(answer) {
            break;
        }
    }
    let end = plan_text::ending(answer, steps, bound_of(s));
    writer.write_all(end.as_str().as_bytes())
}

// Opens a run of the model file s and prints its plan, or its refusal.
fn plan<W: Write>(s: &[u8], writer: &mut W) -> io::Result<()> {
    let opened = run_lent::open_run(s);
    if opened.number != 0 {
        let text = plan_text::refusal(opened.number, opened.place);
        return writer.write_all(text.as_str().as_bytes());
    }
    print_run(s, opened.state, writer)
}

fn main(rt: HostRuntime) -> io::Result<()> {
    let mut model = [0u8; limit::FILE + 1];
    let size = plan_input::read_full(&mut rt.reader(), &mut model)?;
    plan(&model[..size], &mut io::writer(&rt))
}
