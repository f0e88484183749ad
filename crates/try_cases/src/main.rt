// Runs every model file of data/cases.bin through check and bound, and prints a line for each: its number and the answer.
//
// cases.bin, little-endian: u16 number of cases; each case: u16 number of runs; each run: u16 repeat, u16 length, bytes.
// A file that is not so, or a case that the model's 70,000 bytes don't hold, ends the program with the line `damaged`.
// A file that can't be opened or read, and a write that fails, end it with that error.
#![tactic(auto)]

use arrayvec::ArrayVec;
use file_bound::Bounded;
use std::fs::File;
use std::io;
use std::io::Write;

// Room for cases.bin, and for a model: more than the largest that is accepted.
const FILE: usize = 131072;

const MODEL: usize = 70000;

// Room for the lines that are not written yet: they are written once they are half of it or more.
const LINES: usize = 4096;

// ---- a case's bytes

// Puts one run, which the file begins with, behind the model, and answers what the file has behind it. None: the file ends
// within the run, or the model is full.
fn run<'a>(file: &'a [u8], model: &mut ArrayVec<u8, MODEL>) -> Option<&'a [u8]> {
    let (head, rest) = file.split_at_checked(4)?;
    let (bytes, rest) = rest.split_at_checked(file_fields::u16_at(head, 2) as usize)?;
    for _ in 0..file_fields::u16_at(head, 0) {
        if model.try_extend_from_slice(bytes).is_err() {
            return None;
        }
    }
    if model.is_full() {
        return None;
    }
    Some(rest)
}

// Makes the model of one case, which the file begins with, and answers what the file has behind it. None: as `run` has it.
fn expand<'a>(file: &'a [u8], model: &mut ArrayVec<u8, MODEL>) -> Option<&'a [u8]> {
    model.clear();
    let (head, mut rest) = file.split_at_checked(2)?;
    for _ in 0..file_fields::u16_at(head, 0) {
        rest = run(rest, model)?;
    }
    Some(rest)
}

// ---- the answer's words

// Writes the line of case n, whose bytes are `model`.
fn answer<W: Write>(n: u32, model: &[u8], writer: &mut W) -> io::Result<()> {
    let checked = file_check::check(model);
    let bounded = file_bound::bound(model);
    if checked.err() != bounded.err() {
        return writeln!(writer, "{n} disagree");
    }
    match bounded {
        Err(refused) => writeln!(
            writer,
            "{n} refused {} at {}",
            refused.refusal.number(),
            refused.place
        ),
        Ok(Bounded::None) => writeln!(writer, "{n} bound none"),
        Ok(Bounded::Over) => writeln!(writer, "{n} bound over"),
        Ok(Bounded::At(number)) => writeln!(writer, "{n} bound {number}"),
    }
}

// ---- all cases

// Writes the line of each case, and answers whether the cases are as they should be. `lines` has those that are not written yet.
fn answer_all<W: Write>(
    file: &[u8],
    lines: &mut ArrayVec<u8, LINES>,
    writer: &mut W,
) -> io::Result<bool> {
    let mut model = ArrayVec::<u8, MODEL>::new();
    let Some((head, mut rest)) = file.split_at_checked(2) else {
        return Ok(false);
    };
    for n in 1..=file_fields::u16_at(head, 0) {
        let Some(behind) = expand(rest, &mut model) else {
            return Ok(false);
        };
        rest = behind;
        answer(n, &model, lines)?;
        if LINES / 2 <= lines.len() {
            writer.write_all(lines.as_slice())?;
            lines.clear();
        }
    }
    Ok(rest.is_empty())
}

// Writes the line of each case, and `damaged` where the cases are not as they should be.
fn write_answers<W: Write>(file: &[u8], writer: &mut W) -> io::Result<()> {
    let mut lines = ArrayVec::new();
    let whole = answer_all(file, &mut lines, writer)?;
    writer.write_all(lines.as_slice())?;
    if !whole {
        writer.write_all(b"damaged\n")?;
    }
    Ok(())
}

fn main(rt: HostRuntime) -> io::Result<()> {
    let mut file = [0u8; FILE];
    let size = plan_input::read_full(&mut File::open(&rt, "cases.bin")?, &mut file)?;
    write_answers(&file[..size], &mut io::writer(&rt))
}
