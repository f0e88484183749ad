// An open run by value: the file and the struct of its state go in, and the struct that the call leaves comes back.
#![tactic(auto)]

ghost use Rattle.row_struct.specs.State.{row_of, Full};
ghost use Rattle.run_row.specs.Call.{asked, call_row};
ghost use Rattle.run_by_value.specs.Moved.{TellsMoved};

use base_numbers::row;
use row_struct::State;
use run_limit::Answer;

// The answer, the steps done in this call, the lines they wrote, and the state that the call leaves.
#[derive(Clone, Copy)]
pub struct Moved {
    pub answer: Answer,
    pub steps: u32,
    pub lines: usize,
    pub state: State,
}

// At most `limit` steps of the run whose file is s, with their lines written into the journal. Any struct may be handed in: of
// a run that is not sound 20 is told, and the state comes back as it was (`away_same`, for which the struct taken is full too).
pub fn run_state<'a>(s: &'a [u8], state: State, limit: u32, journal: &'a mut [u8]) -> Moved
    ensures tells_moved { TellsMoved (call_row s.now (asked limit journal.old) (row_of state)) result
        journal.old journal.new }
    ensures full { Full state }
{
    let mut w = [0u64; row::WORDS];
    row_struct::unpack(state, &mut w);
    let ran = run_row::run_row(s, &mut w, limit, journal);
    let answer = ran.answer;
    let left = row_struct::pack(&w);
    Moved {
        answer,
        steps: ran.steps,
        lines: ran.lines,
        state: left,
    }
}
