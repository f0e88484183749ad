// One turn of a run that is printed: a call with an empty journal, and its lines as text.
#![tactic(auto)]

ghost use Rattle.std.specs.Prelude.{◌≡◌, ◌*◌, ◌/◌, ◌≤◌, length};
ghost use Rattle.semantics.specs.Run.{run as run_of};
ghost use Rattle.semantics.specs.Journal.{room_in};
ghost use Rattle.base_numbers.specs.Line as Line;
ghost use Rattle.act_floor.specs.Acting.{Open};
ghost use Rattle.plan_turn.specs.Turn.{AnsweredAs};

use arrayvec::ArrayString;
use run_limit::Answer;

pub mod slice;

// The answer, and the steps done in this turn.
#[derive(Clone, Copy)]
pub struct Answered {
    pub answer: Answer,
    pub steps: u32,
}

// At most `limit` steps; what the journal held is written over, and the text is that of the lines, whatever it was.
pub fn turn<'a, const N: usize>(
    s: &'a [u8],
    map: &'a [u32],
    w: &'a mut [u64],
    limit: u32,
    journal: &'a mut [u8],
    text: &'a mut ArrayString<N>,
) -> Answered
    requires fact { Open s.now map.now w.old }
    requires journal_in_bounds { Line.TEXT * (length journal.old / Line.BYTES) ≤ N }
    ensures { (v : Open s.now map.now w.old) →
        AnsweredAs (run_of v.run.model limit (room_in journal.old) v.run.is) result w.new
        journal.old journal.new text.new.bytes }
{
    let ran = run_limit::run(s, map, w, limit, journal);
    plan_text::lines(journal, ran.lines, text);
    Answered {
        answer: ran.answer,
        steps: ran.steps,
    }
}
