// What a step comes to, and what every action needs: the clock, the floor and a line of the journal.
#![tactic(auto)]

ghost use Rattle.std.specs.Prelude.{◌≡◌, [], ◌∷◌, ◌+◌, ◌*◌, ◌≤◌, ◌<◌, length};
ghost use Rattle.semantics.specs.Numbers as No;
ghost use Rattle.semantics.specs.State.{process, empty, with_floor};
ghost use Rattle.semantics.specs.Walk.{line};
ghost use Rattle.base_numbers.specs.Line as Line;
ghost use Rattle.base_numbers.specs.Byte as Byte;
ghost use Rattle.base_i32.specs.Code.{value_of};
ghost use Rattle.base_journal.specs.Wrote.{wrote_at};
ghost use Rattle.row_work.specs.Work.{Doing, Done};
ghost use Rattle.row_process.specs.Process.{Shown};
ghost use Rattle.row_lists.specs.Lists.{Any};

use base_numbers::row;

// 0 or its fault, and how many lines it wrote.
#[derive(Clone, Copy)]
pub struct Went {
    pub fault: u32,
    pub lines: usize,
}

pub fn clock_of(w: &[u64]) -> u64
    requires { Shown w.now Any }
    ensures { ((v : Shown w.now Any) → result ≡ v.is.clock) × (result ≤ No.latest) }
{
    w[row::CLOCK]
}

// Nobody has the floor.
pub fn leave_floor(w: &mut [u64])
    requires { Doing w.old Any (λ s. with_floor s empty) }
    ensures { Done w.old Any (λ s. with_floor s empty) w.new }
{
    w[row::FLOOR] = 0;
}

// A line of the process in place p.
pub fn note<'a>(w: &'a [u64], p: usize, out: &'a mut [u8], at: usize, kind: u32, value: u32)
    requires { Shown w.now (λ _. p < No.places) × ((Line.BYTES * at + Line.BYTES ≤ length out.old) × (kind < Byte.TWO)) }
    ensures { (v : Shown w.now (λ _. p < No.places)) → out.new
        ≡ wrote_at at (line v.is (process v.is p).number kind (value_of value) ∷ []) out.old }
{
    let clock = clock_of(w) as u32;
    let number = row_process::number_of(w, p) as u32;
    base_journal::write_line(out, at, kind, clock, number, value);
}
