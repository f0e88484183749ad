// A process's slaves in the work: how many there are, claimed, and let go.
#![tactic(auto)]

ghost use Rattle.std.specs.Prelude.{◌≡◌, ◌≤◌, ◌<◌, length, take};
ghost use Rattle.std.proofs.lemmas.List.Edits.{sets};
ghost use Rattle.semantics.specs.Numbers as No;
ghost use Rattle.semantics.specs.Model.{sync, get};
ghost use Rattle.semantics.specs.State.{process};
ghost use Rattle.semantics.specs.Claim.{take_item};
ghost use Rattle.semantics.specs.Step.{freed};
ghost use Rattle.base_ordered.specs.Lines.{pad};
ghost use Rattle.row_work.specs.Work.{Doing, Done};
ghost use Rattle.row_process.specs.Process.{Shown, Lives, changed};
ghost use Rattle.row_slaves.specs.Slaves.{owned_of, Waiting, Owns, joined, let_go};
ghost use Rattle.row_slaves.specs.Slaves.{slaves_from, OneFurther, Sifted, SortedOut};

use base_numbers::{process, row, word};

// ---- how many

// How many of the first `len` words of a row are of sync i.
fn count_of(row: &[u64], len: usize, i: u64) -> usize
    requires { len ≤ length row.now }
    ensures { result ≡ owned_of i (slaves_from 0 len row.now) }
{
    let mut found = 0;
    let mut k = 0;
    while k < len {
        if row[k] / word::SYNC == i {
            found += 1;
        }
        k += 1;
    }
    found
}

// How many slaves of sync i the process in place p has.
pub fn owned(w: &[u64], p: usize, i: u64) -> usize
    requires { Shown w.now (λ _. p < No.places) }
    ensures { (v : Shown w.now (λ _. p < No.places)) → result ≡ owned_of i (process v.is p).slaves }
{
    let many = row_work::word(w, p, process::SLAVES) as usize;
    let first = row::FIRST_OWNED + process::WORDS * p;
    let end = first + process::OWNED_MOST;
    count_of(&w[first..end], many, i)
}

// ---- let go

// The one at k of the row stays, and moves down behind those that stayed; or it goes, and its place is noted.
fn sort_one<'a>(
    row: &'a mut [u64],
    places: &'a mut [u64],
    k: usize,
    gone: usize,
    i: u64,
    n: usize,
) -> usize
    requires { (gone ≤ k) × ((k < length row.old) × (gone < length places.old)) }
    ensures { OneFurther i n k gone row.old places.old result row.new places.new }
{
    let x = row[k];
    if (x / word::SYNC == i) & (gone < n) {
        places[gone] = x % word::PLACES;
        return gone + 1;
    }
    row[k - gone] = x;
    gone
}

// All of the first `len`: how many stay.
fn sift<'a>(row: &'a mut [u64], len: usize, i: u64, n: usize, places: &'a mut [u64]) -> usize
    requires { (len ≤ length row.old) × (len ≤ length places.old) }
    ensures { Sifted i n len row.old places.old result row.new places.new }
{
    let mut gone = 0;
    let mut k = 0;
    while k < len {
        gone = sort_one(row, places, k, gone, i, n);
        k += 1;
    }
    len - gone
}

// From `from` on the row becomes 0.
fn clear(row: &mut [u64], from: usize)
    requires { from ≤ length row.old }
    ensures { row.new ≡ pad (length row.old) (take from row.old) }
{
    let mut k = from;
    while k < row.len() {
        row[k] = 0;
        k += 1;
    }
}

// The row without the first n of sync i, whose places are noted: how many stay.
fn sort_out<'a>(row: &'a mut [u64], len: usize, i: u64, n: usize, places: &'a mut [u64]) -> usize
    requires { (len ≤ length row.old) × (len ≤ length places.old) }
    ensures { SortedOut i n len row.old places.old result row.new places.new }
{
    let left = sift(row, len, i, n, places);
    clear(row, left);
    left
}

// The process in place p lets its first n slaves of sync i go: their places, in the order claimed.
pub fn release<'a>(w: &'a mut [u64], p: usize, i: u64, n: usize, places: &'a mut [u64])
    requires doing { Doing w.old (Owns p i n) (changed p (let_go i n)) }
    requires in_bounds { No.places ≤ length places.old }
    ensures done { Done w.old (Owns p i n) (changed p (let_go i n)) w.new }
    ensures places_after { (d : Doing w.old (Owns p i n) (changed p (let_go i n)))
        → places.new ≡ sets places.old 0 (freed i n (process d.is p).slaves) }
{
    let many = row_work::word(w, p, process::SLAVES) as usize;
    let first = row::FIRST_OWNED + process::WORDS * p;
    let end = first + process::OWNED_MOST;
    let left = sort_out(&mut w[first..end], many, i, n, places);
    row_work::set_word(w, p, process::SLAVES, left as u64);
}

// ---- claimed

// The process in place p has one slave more: that in place r, of sync i.
fn add_slave(w: &mut [u64], p: usize, i: u64, r: u64)
    requires { Doing w.old (Lives p) (changed p (joined i r)) }
    ensures { Done w.old (Lives p) (changed p (joined i r)) w.new }
{
    let many = row_work::word(w, p, process::SLAVES);
    row_work::set_word(w, p, process::OWNED + many as usize, word::SYNC * i + r);
    row_work::set_word(w, p, process::SLAVES, many + 1);
}

// The first that waits for sync i becomes its last slave.
fn claim_one(w: &mut [u64], p: usize, i: usize)
    requires { Doing w.old (Waiting p i 1) (take_item p (get sync i 1)) }
    ensures { Done w.old (Waiting p i 1) (take_item p (get sync i 1)) w.new }
{
    let place = row_lists::take_waiting(w, i);
    add_slave(w, p, i as u64, place as u64);
}

// The first n that wait for sync i become its slaves.
pub fn claim_slaves(w: &mut [u64], p: usize, i: usize, n: usize)
    requires { Doing w.old (Waiting p i n) (take_item p (get sync i n)) }
    ensures { Done w.old (Waiting p i n) (take_item p (get sync i n)) w.new }
{
    let mut k = 0;
    while k < n {
        claim_one(w, p, i);
        k += 1;
    }
}
