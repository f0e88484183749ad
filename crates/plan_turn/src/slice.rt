// The same turn for who lends a slice: the text of the lines is put at its front. The answer is a number.

ghost use Rattle.std.specs.Prelude.{◌≡◌, ◌*◌, ◌/◌, ◌≤◌, length};
ghost use Rattle.semantics.specs.Run.{run as run_of};
ghost use Rattle.semantics.specs.Journal.{room_in};
ghost use Rattle.base_numbers.specs.Line as Line;
ghost use Rattle.act_floor.specs.Acting.{Open};
ghost use Rattle.plan_turn.specs.Lent.{AnsweredAs};

// The answer's number, the steps done in this turn and how many bytes its lines have as text.
#[derive(Clone, Copy)]
pub struct Answered {
    pub answer: u32,
    pub steps: u32,
    pub bytes: usize,
}

// At most `limit` steps; what the journal held is written over, and the text of the lines stands at the front of `out`.
pub fn turn<'a>(
    s: &'a [u8],
    map: &'a [u32],
    w: &'a mut [u64],
    limit: u32,
    journal: &'a mut [u8],
    out: &'a mut [u8],
) -> Answered
    requires fact { Open s.now map.now w.old }
    requires journal_in_bounds { Line.TEXT * (length journal.old / Line.BYTES) ≤ length out.old }
    ensures { (v : Open s.now map.now w.old) →
        AnsweredAs (run_of v.run.model limit (room_in journal.old) v.run.is) result w.new
        journal.old journal.new out.old out.new }
{
    let ran = run_limit::run(s, map, w, limit, journal);
    Answered {
        answer: run_limit::number_of(ran.answer),
        steps: ran.steps,
        bytes: plan_text::slice::lines(journal, ran.lines, out),
    }
}
