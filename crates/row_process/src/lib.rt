// One process of the work: its parts read, and changed one at a time.
#![tactic(auto)]

ghost use Rattle.std.specs.Prelude.{◌≡◌, ◌&&◌, ◌∷◌, ◌-◌, ◌≤◌, ◌<◌, eqb, length, get_or, set};
ghost use Rattle.semantics.specs.Numbers as No;
ghost use Rattle.semantics.specs.Words.{all, is_empty, more, fewer};
ghost use Rattle.semantics.specs.State.{Frame, process, with_priority, with_locals, with_held, with_frames, past, into};
ghost use Rattle.base_numbers.specs.Limit as Limit;
ghost use Rattle.base_i32.specs.Code.{value_of};
ghost use Rattle.row_work.specs.Work.{frame_word, work_of, Doing, Done};
ghost use Rattle.row_process.specs.Process.{Shown, Lives, Inner, Coded, HasLocal, Claims, Holds};
ghost use Rattle.row_process.specs.Process.{changed, again, out};

use base_numbers::{limit, process, row, word};

// ---- what is read

pub fn number_of(w: &[u64], p: usize) -> u64
    requires { Shown w.now (λ _. p < No.places) }
    ensures { (v : Shown w.now (λ _. p < No.places)) → result ≡ (process v.is p).number }
{
    row_work::word(w, p, process::NUMBER)
}

// How many blocks it is in.
pub fn depth_of(w: &[u64], p: usize) -> usize
    requires { Shown w.now (λ _. p < No.places) }
    ensures { ((v : Shown w.now (λ _. p < No.places)) → result ≡ length (process v.is p).frames)
        × (result ≤ Limit.DEPTH) }
{
    row_work::word(w, p, process::DEPTH) as usize
}

// The word of its innermost block.
fn top_word(w: &[u64], p: usize) -> u64
    requires { Shown w.now (Lives p) }
    ensures { (v : Shown w.now (Lives p)) → result ≡ frame_word v.given.innermost }
{
    let depth = depth_of(w, p);
    row_work::word(w, p, process::BEFORE_BLOCKS + depth)
}

// Its innermost block, the index of the action where it stands in it, and the rounds left of it.
pub fn block_at(w: &[u64], p: usize) -> usize
    requires { Shown w.now (Lives p) }
    ensures { (v : Shown w.now (Lives p)) → result ≡ v.given.innermost.block }
{
    (top_word(w, p) % word::BLOCKS) as usize
}

pub fn standing_at(w: &[u64], p: usize) -> usize
    requires { Shown w.now (Lives p) }
    ensures { (v : Shown w.now (Lives p)) → result ≡ v.given.innermost.at }
{
    (top_word(w, p) / word::ACTION % word::ACTIONS) as usize
}

pub fn rounds_at(w: &[u64], p: usize) -> u64
    requires { Shown w.now (Lives p) }
    ensures { (v : Shown w.now (Lives p)) → result ≡ v.given.innermost.rounds }
{
    top_word(w, p) / word::ROUND
}

// What it holds of resource i.
pub fn held_of(w: &[u64], p: usize, i: usize) -> u64
    requires { Shown w.now (λ s. (p < No.places) × (i < length (process s p).held)) }
    ensures { ((v : Shown w.now (λ s. (p < No.places) × (i < length (process s p).held)))
        → result ≡ get_or (process v.is p).held i 0) × (result ≤ Limit.AMOUNT) }
{
    row_work::word(w, p, process::HELD + i)
}

fn all_zero(row: &[u64]) -> bool
    ensures { result ≡ all (λ n. eqb n 0) row.now }
{
    let mut zero = true;
    let mut i = 0;
    while i < row.len() {
        zero = zero & (row[i] == 0);
        i += 1;
    }
    zero
}

// It holds no resource and has no slave.
pub fn holds_nothing(w: &[u64], p: usize) -> bool
    requires { Shown w.now (λ _. p < No.places) }
    ensures { (v : Shown w.now (λ _. p < No.places))
        → result ≡ (all (λ n. eqb n 0) (process v.is p).held && is_empty (process v.is p).slaves) }
{
    let first = row::FIRST_HELD + process::WORDS * p;
    let end = first + limit::THINGS;
    all_zero(&w[first..end]) & (row_work::word(w, p, process::SLAVES) == 0)
}

// ---- what is changed

// The word of the innermost block becomes x, the word of a block g.
fn set_top(w: &mut [u64], p: usize, x: u64)
    requires { Shown w.old (Lives p) }
    ensures { (v : Shown w.old (Lives p)) (g : Frame) → x ≡ frame_word g
        → w.new ≡ work_of (changed p (λ q. with_frames q (g ∷ v.given.around)) v.is) }
{
    let depth = depth_of(w, p);
    row_work::set_word(w, p, process::BEFORE_BLOCKS + depth, x);
}

// The process in place p goes past the action where it stands.
pub fn past(w: &mut [u64], p: usize)
    requires { Doing w.old (Lives p) (changed p past) }
    ensures { Done w.old (Lives p) (changed p past) w.new }
{
    let top = top_word(w, p);
    set_top(w, p, top + word::ACTION);
}

// It goes into block b for n rounds from there: first into a block of nothing, then that is told.
pub fn into(w: &mut [u64], p: usize, n: u64, b: u64)
    requires { Doing w.old (Lives p) (changed p (into n b)) }
    ensures { Done w.old (Lives p) (changed p (into n b)) w.new }
{
    let depth = depth_of(w, p) as u64;
    row_work::set_word(w, p, process::DEPTH, depth + 1);
    set_top(w, p, b + word::ROUND * n);
}

fn one_less(n: u64) -> u64
    ensures { result ≡ n - 1 }
{
    if n == 0 { 0 } else { n - 1 }
}

// It goes round its innermost block again, with one round less.
pub fn go_round(w: &mut [u64], p: usize)
    requires { Doing w.old (Lives p) (changed p again) }
    ensures { Done w.old (Lives p) (changed p again) w.new }
{
    let block = block_at(w, p) as u64;
    let rounds = rounds_at(w, p);
    set_top(w, p, block + word::ROUND * one_less(rounds));
}

// It is in its innermost block no more: first that becomes a block of nothing, then there is one block less.
fn drop_block(w: &mut [u64], p: usize)
    requires { Shown w.old (Inner p) }
    ensures { (v : Shown w.old (Inner p))
        → w.new ≡ work_of (changed p (λ q. with_frames q v.given.lives.around) v.is) }
{
    let depth = depth_of(w, p) as u64;
    set_top(w, p, 0);
    row_work::set_word(w, p, process::DEPTH, depth - 1);
}

// It leaves its innermost block, back to the action that named it, or past that.
pub fn leave_block(w: &mut [u64], p: usize, back: bool)
    requires { Doing w.old (Inner p) (changed p (out back)) }
    ensures { Done w.old (Inner p) (changed p (out back)) w.new }
{
    drop_block(w, p);
    if back {
        return;
    }
    past(w, p);
}

// Its priority becomes the number of code c.
pub fn set_priority(w: &mut [u64], p: usize, c: u64)
    requires { Doing w.old (Coded p c) (changed p (λ q. with_priority q (value_of c))) }
    ensures { Done w.old (Coded p c) (changed p (λ q. with_priority q (value_of c))) w.new }
{
    row_work::set_word(w, p, process::PRIORITY, c);
}

// Its local i becomes the number of code c.
pub fn set_local(w: &mut [u64], p: usize, i: usize, c: u64)
    requires { Doing w.old (HasLocal p i c) (changed p (λ q. with_locals q (set q.locals i (value_of c)))) }
    ensures { Done w.old (HasLocal p i c)
        (changed p (λ q. with_locals q (set q.locals i (value_of c)))) w.new }
{
    row_work::set_word(w, p, process::LOCALS + i, c);
}

// It holds n more of resource i, or n less.
pub fn take_up(w: &mut [u64], p: usize, i: usize, n: u64)
    requires { Doing w.old (Claims p i) (changed p (λ q. with_held q (more q.held i n))) }
    ensures { Done w.old (Claims p i) (changed p (λ q. with_held q (more q.held i n))) w.new }
{
    let held = held_of(w, p, i);
    row_work::set_word(w, p, process::HELD + i, held + n);
}

pub fn give_back(w: &mut [u64], p: usize, i: usize, n: u64)
    requires { Doing w.old (Holds p i n) (changed p (λ q. with_held q (fewer q.held i n))) }
    ensures { Done w.old (Holds p i n) (changed p (λ q. with_held q (fewer q.held i n))) w.new }
{
    let held = held_of(w, p, i);
    row_work::set_word(w, p, process::HELD + i, held - n);
}
