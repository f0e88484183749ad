// The booking desk's entry points for C, on bytes and numbers; desk/desk.h says the same to C. Any bytes get an answer.
#![tactic(auto)]

ghost use Rattle.std.specs.Prelude.{◌≡◌, ◌≤◌, length};
ghost use Rattle.semantics.specs.Numbers as No;
ghost use Rattle.semantics.specs.Desk.{check_file, bound_file, run_file};
ghost use Rattle.text_semantics.specs.Answer.{answer as answer_to};
ghost use Rattle.text_reader.specs.Answer.{answered_of, left};
ghost use Rattle.file_check_record.specs.Refused.{number_of};
ghost use Rattle.run_limit.specs.Ran.{answer_of};
ghost use Rattle.semantics.specs.Journal.{written};
ghost use Rattle.run_file.specs.Whole.{journal_after};
ghost use Rattle.run_row.specs.Open.{open_row};
ghost use Rattle.run_row.specs.Call.{asked, call_row};
ghost use Rattle.desk_c.specs.Word.{refusal as refusal_word, check_word, bound_word, told_word, run_word};
ghost use Rattle.desk_c.specs.Word.{open_word, move_word};

use base_numbers::{fault, row};
use file_bound::Bounded;
use file_check::Refused;
use run_limit::Answer;

// A place is below this: it has the low 16 bits of a refusal.
const PLACES: u32 = 65536;

// The lowest of the high 32 bits. What these are besides a number of an answer: no bound, a bound over 4,294,967,295, a refusal.
const HIGH: u64 = 4294967296;

const NONE: u64 = HIGH;

const OVER: u64 = 2 * HIGH;

const REFUSED: u64 = 3 * HIGH;

fn refusal(number: u32, place: usize) -> u32
    requires number_bound { number ≤ No.STATE }
    requires place_bound { place ≤ No.longest_file }
    ensures { result ≡ refusal_word number place }
{
    number * PLACES + (place as u32)
}

// That of a file.
fn refused(r: Refused) -> u32
    requires number_bound { number_of r.refusal ≤ No.STATE }
    requires place_bound { r.place ≤ No.longest_file }
    ensures { result ≡ refusal_word (number_of r.refusal) r.place }
{
    refusal(r.refusal.number(), r.place)
}

#[unsafe(no_mangle)]
pub extern "C" fn desk_check(file: &[u8]) -> u32
    ensures { result ≡ check_word (check_file file.now) }
{
    match file_check::check(file) {
        Ok(()) => 0,
        Err(r) => refused(r),
    }
}

#[unsafe(no_mangle)]
pub extern "C" fn desk_text<'a>(text: &'a [u8], records: &'a mut [u8], place: &'a mut usize) -> u32
    ensures value { result ≡ (answered_of (answer_to text.now (length records.old))).number }
    ensures place_after { place.new ≡ (answered_of (answer_to text.now (length records.old))).place }
    ensures records_after { records.new
        ≡ left (answer_to text.now (length records.old)) records.old }
{
    match text_reader::read(text, records) {
        Ok(size) => {
            *place = size;
            0
        }
        Err(refused) => {
            *place = refused.place;
            refused.reason.number()
        }
    }
}

#[unsafe(no_mangle)]
pub extern "C" fn desk_bound(file: &[u8]) -> u64
    ensures { result ≡ bound_word (bound_file file.now) }
{
    match file_bound::bound(file) {
        Ok(Bounded::At(n)) => n as u64,
        Ok(Bounded::None) => NONE,
        Ok(Bounded::Over) => OVER,
        Err(r) => REFUSED + (refused(r) as u64),
    }
}

// The answer and the steps done, in one number.
fn told(answer: Answer, steps: u32) -> u64
    ensures { result ≡ told_word (answer_of answer) steps }
{
    (run_limit::number_of(answer) as u64) * HIGH + (steps as u64)
}

#[unsafe(no_mangle)]
pub extern "C" fn desk_run<'a>(file: &'a [u8], limit: u32, journal: &'a mut [u8]) -> u64
    ensures value { result ≡ run_word (run_file file.now limit journal.old) }
    ensures journal_after { journal.new
        ≡ journal_after (run_file file.now limit journal.old) journal.old }
{
    match run_file::run_whole(file, limit, journal) {
        Ok(whole) => {
            let answer = whole.answer;
            told(answer, whole.steps)
        }
        Err(r) => REFUSED + (refused(r) as u64),
    }
}

#[unsafe(no_mangle)]
pub extern "C" fn desk_open<'a>(file: &'a [u8], run: &'a mut [u64]) -> u32
    ensures value { result ≡ open_word (open_row file.now run.old) }
    ensures run_after { run.new ≡ (open_row file.now run.old).row }
{
    let opened = run_lent::open_run(file);
    if opened.number != 0 {
        return refusal(opened.number, opened.place);
    }
    if run.len() != row::WORDS {
        return refusal(fault::STATE, 0);
    }
    let state = opened.state;
    row_struct::unpack(state, run);
    0
}

#[unsafe(no_mangle)]
pub extern "C" fn desk_move<'a>(
    file: &'a [u8],
    run: &'a mut [u64],
    limit: u32,
    journal: &'a mut [u8],
) -> u64
    ensures value { result ≡ move_word (call_row file.now (asked limit journal.old) run.old) }
    ensures run_after { run.new
        ≡ (call_row file.now (asked limit journal.old) run.old).row }
    ensures journal_after { journal.new
        ≡ written (call_row file.now (asked limit journal.old) run.old).lines
        journal.old }
{
    if run.len() != row::WORDS {
        return told(Answer::Fault(fault::STATE), 0);
    }
    let state = row_struct::pack(run);
    let moved = run_lent::moved_on(file, state, limit, journal);
    let left = moved.state;
    row_struct::unpack(left, run);
    let answer = moved.answer;
    told(answer, moved.steps)
}
