// A whole run of a model file: from any bytes to the refusal, or the answer and the steps, with the journal lent.
#![tactic(auto)]

ghost use Rattle.std.specs.Prelude.{◌≡◌};
ghost use Rattle.semantics.specs.Desk.{check_file, run_file};
ghost use Rattle.file_check.specs.Check.{passed_of};
ghost use Rattle.run_file.specs.Whole.{told_of, journal_after};

use base_numbers::row;
use file_check::Refused;
use run_limit::Answer;

/// The answer, and how many steps were done.
#[derive(Clone, Copy)]
pub struct Whole {
    pub answer: Answer,
    pub steps: u32,
}

// What decides whether a file is run.
fn check(file: &[u8]) -> Result<(), Refused>
    ensures { passed_of result ≡ check_file file.now }
{
    file_check::check(file)
}

/// From fresh, at most `limit` steps. A file that is refused leaves the journal as it was.
pub fn run_whole<'a>(s: &'a [u8], limit: u32, journal: &'a mut [u8]) -> Result<Whole, Refused>
    ensures value { told_of result journal.new ≡ run_file s.now limit journal.old }
    ensures journal_after { journal.new
        ≡ journal_after (run_file s.now limit journal.old) journal.old }
{
    check(s)?;
    let map = file_map::map_of(s);
    let mut w = [0u64; row::WORDS];
    run_fresh::fresh(s, &map.words, &mut w);
    let ran = run_limit::run(s, &map.words, &mut w, limit, journal);
    let answer = ran.answer;
    Ok(Whole {
        answer,
        steps: ran.steps,
    })
}
