// The desk's open run: opened from a model file, lent, and moved on between calls. A call is the by-value call of crate
// run_by_value, whose state is stored where the run was lent.
#![tactic(auto)]

ghost use Rattle.std.specs.Prelude.{◌≡◌};
ghost use Rattle.semantics.specs.Decode.{decode};
ghost use Rattle.row_struct.specs.State.{row_of, Full};
ghost use Rattle.run_row.specs.Open.{number_told, place_told};
ghost use Rattle.run_row.specs.Call.{asked, call_row, TellsCall};
ghost use Rattle.run_by_value.specs.Moved.{TellsMoved};
ghost use Rattle.run_lent.specs.Opened.{TellsOpened};

use base_numbers::row;
use row_struct::State;
use run_by_value::Moved;
use run_limit::Ran;
use run_row::Unopened;

// The number and the place of a refusal and a state that is all 0; or 0, 0 and the state of a fresh run.
// It is no Result, since with a refusal too it hands out a state (`opened_row`).
#[derive(Clone, Copy)]
pub struct Opened {
    pub number: u32,
    pub place: usize,
    pub state: State,
}

// The number and the place of why no run is opened; 0 and 0 where one is.
fn told(opened: Result<(), Unopened>) -> (u32, usize)
    ensures number { result.0 ≡ number_told opened }
    ensures place { result.1 ≡ place_told opened }
{
    match opened {
        Ok(()) => (0, 0),
        Err(unopened) => (unopened.number(), unopened.place()),
    }
}

// Opens a run of the model file s. What is told of one file is told in one way only (`same_opened`).
pub fn open_run(s: &[u8]) -> Opened
    ensures { TellsOpened (decode s.now) result }
{
    let mut w = [0u64; row::WORDS];
    let opened = run_row::open_row(s, &mut w);
    let (number, place) = told(opened);
    let state = row_struct::pack(&w);
    Opened {
        number,
        place,
        state,
    }
}

// At most `limit` steps of the run lent, whose file is s, with their lines written into the journal. Any struct may be lent: of
// a run that is not sound 20 is told, and it is left as it was. The structs before and after are full, so that their rows fix
// them (`same_lent`).
pub fn move_on<'r, 'a>(s: &'a [u8], run: &'r mut State, limit: u32, journal: &'a mut [u8]) -> Ran
    ensures { TellsCall (call_row s.now (asked limit journal.old) (row_of run.old)) result
        (row_of run.new) journal.old journal.new
        × (Full run.old × Full run.new) }
{
    let moved = run_by_value::run_state(s, *run, limit, journal);
    *run = moved.state;
    let answer = moved.answer;
    Ran {
        answer,
        steps: moved.steps,
        lines: moved.lines,
    }
}

// The same for a caller that keeps its run by value: it is lent to `move_on` and handed back.
pub fn moved_on<'a>(s: &'a [u8], run: State, limit: u32, journal: &'a mut [u8]) -> Moved
    ensures { TellsMoved (call_row s.now (asked limit journal.old) (row_of run)) result
        journal.old journal.new × Full run }
{
    let mut kept = run;
    let ran = move_on(s, &mut kept, limit, journal);
    let answer = ran.answer;
    Moved {
        answer,
        steps: ran.steps,
        lines: ran.lines,
        state: kept,
    }
}
