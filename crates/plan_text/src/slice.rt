// The same texts for who lends a slice: each is put at its front, and what stands behind stays. Answers and bounds are numbers.

ghost use Rattle.std.specs.Prelude.{◌≡◌, ◌*◌, ◌≤◌, length};
ghost use Rattle.base_numbers.specs.Line as Line;
ghost use Rattle.run_limit.specs.Ran as Ran;
ghost use Rattle.file_bound.specs.Answer as Told;
ghost use Rattle.plan_text.specs.Text.{lines_text, end_text, refused_text};
ghost use Rattle.plan_text.specs.Tells.{tells_in};
ghost use Rattle.plan_text.specs.Codes.{answer_of, bound_of};
ghost use Rattle.plan_text.specs.Put.{Front};
ghost use Rattle.plan_text.specs.Width as Width;

use arrayvec::ArrayString;
use base_numbers::{answer, line};
use file_bound::Bounded;
use run_limit::Answer;

// The bytes of a line, at most.
const LINE: usize = line::TEXT;

// The words of a bound that is no number.
const NONE: u64 = 4294967296;

const OVER: u64 = 2 * NONE;

// Puts a text at the front of `out`; answers how many bytes it has.
fn front(text: &str, out: &mut [u8]) -> usize
    requires { length text.now ≤ length out.old }
    ensures { Front text.now out.old out.new result }
{
    let size = text.len();
    out[..size].copy_from_slice(text.as_bytes());
    size
}

// The first n lines of the journal, at the front of `out`; answers how many bytes they are.
pub fn lines<'a>(journal: &'a [u8], n: usize, out: &'a mut [u8]) -> usize
    requires n_in_bounds { Line.BYTES * n ≤ length journal.now }
    requires n_in_bounds_2 { Line.TEXT * n ≤ length out.old }
    ensures { Front (lines_text (tells_in journal.now n)) out.old out.new result }
{
    let mut text = ArrayString::<LINE>::new();
    let mut at = 0;
    for k in 0..n {
        super::lines(&journal[line::BYTES * k..], 1, &mut text);
        at += front(text.as_str(), &mut out[at..]);
    }
    at
}

// The answer with this number.
#[tactic(auto, unfolding(crate::specs::Codes::answer_of))]
fn answer_as(number: u32) -> Answer
    ensures { Ran.answer_of result ≡ answer_of number }
{
    match number {
        answer::CLOSED => Answer::Closed,
        answer::IDLE => Answer::Idle,
        answer::LIMIT => Answer::Limit,
        fault => Answer::Fault(fault),
    }
}

// The bound with this word.
#[tactic(auto, unfolding(crate::specs::Codes::bound_of))]
fn bound_as(word: u64) -> Bounded
    ensures { Told.bound_as result ≡ bound_of word }
{
    if word < NONE {
        return Bounded::At(word as u32);
    }
    if word < OVER {
        return Bounded::None;
    }
    Bounded::Over
}

// The last line, at the front of `out`; answers how many bytes it has.
pub fn ending(answer: u32, steps: u32, bound: u64, out: &mut [u8]) -> usize
    requires { Width.ENDING ≤ length out.old }
    ensures { Front (end_text (answer_of answer) steps (bound_of bound)) out.old out.new result }
{
    let text = super::ending(answer_as(answer), steps, bound_as(bound));
    front(text.as_str(), out)
}

// A refusal, at the front of `out`; answers how many bytes it has.
pub fn refusal(number: u32, place: usize, out: &mut [u8]) -> usize
    requires { Width.REFUSAL ≤ length out.old }
    ensures { Front (refused_text number place) out.old out.new result }
{
    let text = super::refusal(number, place);
    front(text.as_str(), out)
}
