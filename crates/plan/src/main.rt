// Reads a model from standard input, runs it for at most 1,000,000 steps and prints its plan.
//
// One byte more is read than a model may have, so that a file of over 65,535 bytes is refused like any other. The run is made in
// turns, each with an empty journal that has room for all that its steps may write, so that 30 is never met. What a turn wrote
// is printed in one piece.
//
// No contract can say what standard output was given. So `at` counts the bytes that were handed over to be written, and `print`
// asks that its text is what the plan's text has from there on: from the first byte to the last, nothing twice and nothing left
// out. And where a writer's bytes are known, they grow by that text and by nothing else, unless a write fails. What comes behind
// one that fails is handed over all the same; the first of them ends the program.
#![tactic(auto)]

ghost use Rattle.std.specs.Prelude.{◌≡◌, ◌+◌, ◌<◌, ◌&&◌, ltb, length, take, IfSome, OnOk};
ghost use Rattle.std.specs.Io.KnownBytes.{Appends};
ghost use Rattle.semantics.specs.Numbers as No;
ghost use Rattle.semantics.specs.Decode.{accepted};
ghost use Rattle.semantics.specs.Desk.{bound_file};
ghost use Rattle.base_numbers.specs.Byte as Byte;
ghost use Rattle.run_limit.specs.Ran.{answer_of};
ghost use Rattle.file_bound.specs.Answer.{bound_as};
ghost use Rattle.plan.specs.Given.{is_limit};
ghost use Rattle.plan.specs.Printed.{plan_text, Next};

use arrayvec::ArrayString;
use base_numbers::{limit, line, row};
use file_bound::Bounded;
use run_limit::Answer;
use std::io;
use std::io::{Read, Write};

// The lines that the journal has room for, its bytes, and those of the lines as text.
const LINES: usize = 4096;

const JOURNAL: usize = LINES * line::BYTES;

const TEXT: usize = LINES * line::TEXT;

// The steps of a turn. Each writes at most 65 lines (`step_lines`), and a step that finds room for 66 writes straight into the
// journal: 62 times 66 are within LINES.
const TURN: u32 = 62;

// How many bytes were handed over to be written, and the first write that failed. It is no Result: the bytes are counted behind
// a write that failed too.
#[derive(Drop)]
struct Written {
    bytes: usize,
    went: io::Result<()>,
}

// Prints the next piece of the plan of the file s, of which `at` bytes were printed before.
fn print<W: Write>(s: &[u8], text: &str, at: &mut usize, writer: &mut W) -> io::Result<()>
    requires next { Next (plan_text s.now) at.old text.now }
    requires text_bound { at.old + length text.now < Byte.EIGHT }
    ensures at_after { at.new ≡ at.old + length text.now }
    ensures written { OnOk result (Appends (W.contents writer.old) (W.contents writer.new) text.now) }
{
    let went = writer.write_all(text.as_bytes());
    *at += text.len();
    went
}

// Whether another turn is made.
fn goes_on(answer: Answer, steps: u32) -> bool
    ensures { result ≡ (is_limit (answer_of answer) && ltb steps No.plan_steps) }
{
    match answer {
        Answer::Limit => steps < limit::PLAN_STEPS,
        _ => false,
    }
}

// Runs an accepted model, and prints its lines and its last line: the whole plan.
fn print_run<W: Write>(s: &[u8], bound: Bounded, at: &mut usize, writer: &mut W) -> io::Result<()>
    requires accepted { accepted (bound_as bound) ≡ bound_file s.now }
    requires at_value { at.old ≡ 0 }
    ensures at_after { at.new ≡ length (plan_text s.now) }
    ensures written { OnOk result (Appends (W.contents writer.old) (W.contents writer.new) (plan_text s.now)) }
{
    let map = file_map::map_of(s);
    let mut w = [0u64; row::WORDS];
    let mut journal = [0u8; JOURNAL];
    let mut text = ArrayString::<TEXT>::new();
    run_fresh::fresh(s, &map.words, &mut w);
    let mut steps: u32 = 0;
    let mut answer = Answer::Limit;
    let mut went = Ok(());
    while goes_on(answer, steps) {
        let limit = (limit::PLAN_STEPS - steps).min(TURN);
        let turn = plan_turn::turn(s, &map.words, &mut w, limit, &mut journal, &mut text);
        went = went.and(print(s, text.as_str(), at, writer));
        steps += turn.steps;
        answer = turn.answer;
    }
    let end = plan_text::ending(answer, steps, bound);
    went.and(print(s, end.as_str(), at, writer))
}

// Prints the plan of the model file s, or its refusal; answers how many bytes that is, and the first write that failed.
fn plan<W: Write>(s: &[u8], writer: &mut W) -> Written
    ensures bytes { result.bytes ≡ length (plan_text s.now) }
    ensures written { OnOk result.went (Appends (W.contents writer.old) (W.contents writer.new) (plan_text s.now)) }
{
    let mut at = 0;
    match file_bound::bound(s) {
        Ok(bound) => {
            let went = print_run(s, bound, &mut at, writer);
            Written { bytes: at, went }
        }
        Err(refused) => {
            let text = plan_text::refusal(refused.refusal.number(), refused.place);
            let went = print(s, text.as_str(), &mut at, writer);
            Written { bytes: at, went }
        }
    }
}

// Reads a model, and prints its plan and nothing else.
fn run<R: Read, W: Write>(reader: &mut R, writer: &mut W) -> io::Result<()>
    ensures { OnOk result (IfSome (R.remaining reader.old) (λ input.
        Appends (W.contents writer.old) (W.contents writer.new) (plan_text (take (No.longest_file + 1) input)))) }
{
    let mut model = [0u8; limit::FILE + 1];
    let size = plan_input::read_full(reader, &mut model)?;
    plan(&model[..size], writer).went
}

fn main(rt: HostRuntime) -> io::Result<()> {
    run(&mut rt.reader(), &mut io::writer(&rt))
}
