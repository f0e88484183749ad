// What `plan` prints, as text of a fixed room: the lines of a journal, the last line, a refusal.
#![tactic(auto)]

ghost use Rattle.std.specs.Prelude.{◌≡◌, ◌++◌, ◌+◌, ◌*◌, ◌≤◌, length};
ghost use Rattle.arrayvec.specs.ArrayString.{array_string_len};
ghost use Rattle.base_numbers.specs.Line as Line;
ghost use Rattle.run_limit.specs.Ran.{answer_of};
ghost use Rattle.plan_text.specs.Text.{ascii, line_text, lines_text};
ghost use Rattle.plan_text.specs.Text.{answer_text, bound_text, end_text, refused_text};
ghost use Rattle.plan_text.specs.Tells.{tell_in, tells_in};
ghost use Rattle.file_bound.specs.Answer.{bound_as};
ghost use Rattle.plan_text.specs.Width as Width;

use arrayvec::ArrayString;
use base_numbers::line;
use file_bound::Bounded;
use itoa::Integer;
use run_limit::Answer;

pub mod slice;

// The bytes of the last line and of a refusal, at most.
pub const ENDING: usize = 45;

pub const REFUSAL: usize = 43;

// Puts the decimals of n behind the text, and a mark behind them.
fn push_number<I: Integer, const N: usize>(text: &mut ArrayString<N>, n: I, mark: &str)
    requires { array_string_len text.old + I.MAX_STR_LEN + length mark.now ≤ N }
    ensures bytes { text.new.bytes ≡ text.old.bytes ++ (I.text n ++ mark.now) }
    ensures upper_bound { array_string_len text.new ≤ array_string_len text.old + I.MAX_STR_LEN + length mark.now }
{
    let mut digits = itoa::Buffer::new();
    text.push_str(digits.format(n));
    text.push_str(mark);
}

// ---- a line of the journal

// Puts the line that the journal begins with behind the text: 40 bytes at most.
fn push_line<const N: usize>(text: &mut ArrayString<N>, journal: &[u8])
    requires in_bounds { Line.BYTES ≤ length journal.now }
    requires room { array_string_len text.old + Line.TEXT ≤ N }
    ensures bytes { text.new.bytes ≡ text.old.bytes ++ line_text (tell_in journal.now) }
    ensures upper_bound { array_string_len text.new ≤ array_string_len text.old + Line.TEXT }
{
    let kind = file_fields::u16_at(journal, line::KIND_AT) as u16;
    let value = file_fields::u32_at(journal, line::VALUE_AT).cast_signed();
    push_number(text, file_fields::u32_at(journal, line::TIME_AT), " ");
    push_number(text, file_fields::u32_at(journal, line::PROCESS_AT), " ");
    push_number(text, kind, " ");
    push_number(text, value, "\n");
}

// Makes the text that of the first n lines of the journal, whatever it was.
pub fn lines<const N: usize>(journal: &[u8], n: usize, text: &mut ArrayString<N>)
    requires n_in_bounds { Line.BYTES * n ≤ length journal.now }
    requires n_in_bounds_2 { Line.TEXT * n ≤ N }
    ensures { text.new.bytes ≡ lines_text (tells_in journal.now n) }
{
    text.clear();
    for k in 0..n {
        push_line(text, &journal[line::BYTES * k..]);
    }
}

// ---- the last line, and a refusal

// Puts the answer and a blank behind the text.
fn push_answer<const N: usize>(text: &mut ArrayString<N>, answer: Answer)
    requires { array_string_len text.old + Width.ANSWER ≤ N }
    ensures bytes { text.new.bytes ≡ text.old.bytes ++ (answer_text (answer_of answer) ++ ascii " ") }
    ensures upper_bound { array_string_len text.new ≤ array_string_len text.old + Width.ANSWER }
{
    match answer {
        Answer::Closed => text.push_str("closed "),
        Answer::Idle => text.push_str("idle "),
        Answer::Limit => text.push_str("limit "),
        Answer::Fault(number) => {
            text.push_str("fault ");
            push_number(text, number, " ");
        }
    }
}

// Puts the bound and the end of the line behind the text.
fn push_bound<const N: usize>(text: &mut ArrayString<N>, bound: Bounded)
    requires { array_string_len text.old + Width.FIELD ≤ N }
    ensures { text.new.bytes ≡ text.old.bytes ++ (bound_text (bound_as bound) ++ ascii "\n") }
{
    match bound {
        Bounded::None => text.push_str("none\n"),
        Bounded::Over => text.push_str("over\n"),
        Bounded::At(number) => push_number(text, number, "\n"),
    }
}

// The last line.
pub fn ending(answer: Answer, steps: u32, bound: Bounded) -> ArrayString<ENDING>
    ensures { result.bytes ≡ end_text (answer_of answer) steps (bound_as bound) }
{
    let mut text = ArrayString::new();
    push_answer(&mut text, answer);
    push_number(&mut text, steps, " ");
    text.push_str("bound ");
    push_bound(&mut text, bound);
    text
}

// A refusal.
pub fn refusal(number: u32, place: usize) -> ArrayString<REFUSAL>
    ensures { result.bytes ≡ refused_text number place }
{
    let mut text = ArrayString::new();
    text.push_str("refused ");
    push_number(&mut text, number, " ");
    text.push_str("at ");
    push_number(&mut text, place, "\n");
    text
}
