// Processes come and end in the work.
#![tactic(auto)]

ghost use Rattle.std.specs.Prelude.{◌≡◌, [], length, replicate};
ghost use Rattle.semantics.specs.State.{nobody, put, free_place};
ghost use Rattle.row_work.specs.Work.{process_row, Doing, Done};
ghost use Rattle.row_begin_end.specs.Begins.{Ending, Leaving, newcomer_in, Roomy, Vacant, comes, begins, Answers};

use base_numbers::{code, process, row, word};

// ---- one row

// v everywhere.
fn fill(row: &mut [u64], v: u64)
    ensures { row.new ≡ replicate (length row.old) v }
{
    let mut i = 0;
    while i < row.len() {
        row[i] = v;
        i += 1;
    }
}

// Nobody is left there.
fn vacate(row: &mut [u64])
    requires { Leaving row.old }
    ensures { row.new ≡ process_row nobody }
{
    fill(&mut row[process::NUMBER..process::HELD], 0);
    row[process::PRIORITY] = code::ZERO_WORD;
    row[process::BLOCKS] = 0;
}

// One numbered n stands at the first action of block b.
fn furnish(row: &mut [u64], n: u64, b: u64)
    requires { Vacant row.old b }
    ensures { row.new ≡ process_row (newcomer_in n b []) }
{
    row[process::NUMBER] = n;
    row[process::DEPTH] = 1;
    fill(&mut row[process::LOCALS..process::HELD], code::ZERO_WORD);
    row[process::BLOCKS] = b + word::ROUND;
}

// ---- who comes and who ends

// The process in place p ends.
pub fn end(w: &mut [u64], p: usize)
    requires { Doing w.old (Ending p) (λ s. put p nobody s) }
    ensures { Done w.old (Ending p) (λ s. put p nobody s) w.new }
{
    let living = w[row::LIVING];
    let from = row::PROCESSES + process::WORDS * p;
    let to = from + process::WORDS;
    vacate(&mut w[from..to]);
    w[row::LIVING] = base_places::without_place(living, p);
}

// One numbered n comes into the lowest free place, which is the answer, and stands in block b.
fn come(w: &mut [u64], n: u64, b: u64) -> usize
    requires { Doing w.old Roomy (λ s. comes n b s) }
    ensures done { Done w.old Roomy (λ s. comes n b s) w.new }
    ensures answers { Answers w.old Roomy (λ s. comes n b s) free_place result }
{
    let living = w[row::LIVING];
    let p = base_places::free_place(living);
    let from = row::PROCESSES + process::WORDS * p;
    let to = from + process::WORDS;
    furnish(&mut w[from..to], n, b);
    w[row::LIVING] = base_places::with_place(living, p);
    p
}

// One more begins in block b: it is numbered one above the last given, comes, and enters at time t. The answer is its place.
pub fn begin(w: &mut [u64], b: u64, t: u64) -> usize
    requires { Doing w.old Roomy (λ s. begins b t s) }
    ensures done { Done w.old Roomy (λ s. begins b t s) w.new }
    ensures answers { Answers w.old Roomy (λ s. begins b t s) free_place result }
{
    let n = w[row::LAST] + 1;
    w[row::LAST] = n;
    let p = come(w, n, b);
    row_lists::wake(w, t, p);
    p
}
