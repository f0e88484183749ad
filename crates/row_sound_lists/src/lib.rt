// The clauses of a sound run but those on blocks, tested on a row of numbers that shows a state: on places, lists and amounts.
#![tactic(auto)]

ghost use Rattle.std.specs.Prelude.{◌≡◌, ◌+◌, ◌-◌, ◌*◌, ◌≤◌, ◌<◌, length, get_or, if◌then◌else◌};
ghost use Rattle.semantics.specs.Numbers as No;
ghost use Rattle.base_numbers.specs.Row as Row;
ghost use Rattle.base_numbers.specs.Word as Word;
ghost use Rattle.base_numbers.specs.Limit as Limit;
ghost use Rattle.row_sound_lists.specs.Tests.{each, one_if, Bounded, Lined};
ghost use Rattle.row_sound_lists.specs.Tests.{rises, tied, queue_fits, waiting_fits, return_fits, word_fits};
ghost use Rattle.row_sound_lists.specs.Tests.{event_fits, events_fit};
ghost use Rattle.row_sound_lists.specs.Tests.{slaves_known, alike, vacant_row, living_row, place_fits};
ghost use Rattle.row_sound_lists.specs.Tests.{in_events, in_queue, in_waiting, in_slaves, owned, place_listed};
ghost use Rattle.row_sound_lists.specs.Tests.{held_all, returning_at, returning_all, amounts_add};
ghost use Rattle.row_sound_lists.specs.Counted.{Counted, sound_beside};

use base_numbers::{code, limit, most, notice, process, row, word};

fn one_if(b: bool) -> usize
    ensures { (result ≡ one_if b) × (result ≤ 1) }
{
    if b { 1 } else { 0 }
}

fn either(first: bool, a: u64, b: u64) -> u64
    ensures { result ≡ (if first then a else b) }
{
    if first { a } else { b }
}

// ---- those that wait

// Whether n numbers from `from` on, each divided by `by`, do not fall.
fn rising(w: &[u64], from: usize, n: usize, by: u64) -> bool
    requires { (from + n ≤ length w.now) × ((n ≤ Row.EVENTS_MOST) × (0 < by)) }
    ensures { result ≡ each (n - 1) (rises w.now from by) }
{
    let mut ok = true;
    let mut k = 0;
    while k + 1 < n {
        ok = (w[from + k] / by <= w[from + (k + 1)] / by) & ok;
        k += 1;
    }
    ok
}

// Whether the priority in the word of one that waits is its own.
fn waiter_tied(w: &[u64], word: u64) -> bool
    requires { length w.now ≡ Row.WORDS }
    ensures { result ≡ tied w.now word }
{
    let own = row_work::word(w, (word % word::PLACES) as usize, process::PRIORITY);
    code::HIGHEST - word / word::KEY % word::RANKS == own
}

fn waiters_tied(w: &[u64], from: usize, n: usize) -> bool
    requires { (length w.now ≡ Row.WORDS) × ((from + n ≤ Row.WORDS) × (n ≤ Row.WAITERS_MOST)) }
    ensures { result ≡ each n (λ k. tied w.now (get_or w.now (from + k) 0)) }
{
    let mut ok = true;
    let mut k = 0;
    while k < n {
        ok = waiter_tied(w, w[from + k]) & ok;
        k += 1;
    }
    ok
}

// Whether those in the row from `from` on, who are as many as stands at `count`, are in order and have their own priorities.
fn queue_fits(w: &[u64], from: usize, count: usize) -> bool
    requires { Lined w.now from count }
    ensures { result ≡ queue_fits w.now from count }
{
    let n = w[count] as usize;
    rising(w, from, n, word::KEY) & waiters_tied(w, from, n)
}

fn waiting_fits(w: &[u64], syncs: usize) -> bool
    requires { Bounded w.now × (syncs ≤ Limit.THINGS) }
    ensures { result ≡ waiting_fits w.now syncs }
{
    let mut ok = true;
    let mut i = 0;
    while i < syncs {
        ok = queue_fits(w, row::WAITING + row::WAITERS_MOST * i, row::WAITS + i) & ok;
        i += 1;
    }
    ok
}

// ---- events

fn return_fits(known: u64, last: u64, rank: u64, word: u64) -> bool
    ensures { result ≡ return_fits known last rank word }
{
    let amount = base_ordered::amount_of(word);
    let giver = base_ordered::giver_of(word);
    (rank == code::OF_RETURNS)
        & ((base_ordered::number_of(word) < known)
            & (((1 <= amount) & (amount <= most::AMOUNT)) & ((1 <= giver) & (giver <= last))))
}

// Whether the word of an event of this rank fits, where `own` is the rank of the process in the place that it names.
fn word_fits(last: u64, resources: u64, bins: u64, rank: u64, own: u64, word: u64) -> bool
    ensures { result ≡ word_fits last resources bins rank own word }
{
    let kind = base_ordered::kind_of(word);
    if kind == notice::WAKES {
        return rank == own;
    }
    return_fits(
        either(kind == notice::RESOURCE, resources, bins),
        last,
        rank,
        word,
    )
}

fn event_fits(w: &[u64], resources: u64, bins: u64, k: usize) -> bool
    requires { (length w.now ≡ Row.WORDS) × (k < Row.EVENTS_MOST) }
    ensures { result ≡ event_fits w.now resources bins k }
{
    let key = w[row::KEYS + k];
    let word = w[row::NOTICES + k];
    let own = row_work::word(w, base_ordered::number_of(word) as usize, process::PRIORITY);
    (w[row::CLOCK] <= key / word::TIME)
        & word_fits(
            w[row::LAST],
            resources,
            bins,
            code::HIGHEST - key % word::RANKS,
            own,
            word,
        )
}

fn each_event_fits(w: &[u64], resources: u64, bins: u64, n: usize) -> bool
    requires { (length w.now ≡ Row.WORDS) × (n ≤ Row.EVENTS_MOST) }
    ensures { result ≡ each n (event_fits w.now resources bins) }
{
    let mut ok = true;
    let mut k = 0;
    while k < n {
        ok = event_fits(w, resources, bins, k) & ok;
        k += 1;
    }
    ok
}

fn events_fit(w: &[u64], resources: u64, bins: u64) -> bool
    requires { Bounded w.now }
    ensures { result ≡ events_fit w.now resources bins }
{
    let n = w[row::EVENTS] as usize;
    rising(w, row::KEYS, n, 1) & each_event_fits(w, resources, bins, n)
}

// ---- places

fn slaves_known(w: &[u64], syncs: u64, p: usize) -> bool
    requires { Bounded w.now × (p < No.places) }
    ensures { result ≡ slaves_known w.now syncs p }
{
    let n = row_work::word(w, p, process::SLAVES) as usize;
    let mut ok = true;
    let mut k = 0;
    while k < n {
        ok = (row_work::word(w, p, process::OWNED + k) / word::SYNC < syncs) & ok;
        k += 1;
    }
    ok
}

// How many places have this number.
fn alike(w: &[u64], number: u64) -> usize
    requires { length w.now ≡ Row.WORDS }
    ensures { result ≡ alike w.now number }
{
    let mut found = 0;
    let mut q = 0;
    while q < limit::PLACES {
        found = one_if(number == row_work::word(w, q, process::NUMBER)) + found;
        q += 1;
    }
    found
}

fn vacant(w: &[u64], p: usize) -> bool
    requires { (length w.now ≡ Row.WORDS) × (p < No.places) }
    ensures { result ≡ vacant_row w.now p }
{
    (row_work::word(w, p, process::NUMBER) == 0)
        & ((row_work::word(w, p, process::PRIORITY) == code::ZERO_WORD)
            & (row_work::word(w, p, process::SLAVES) == 0))
}

fn living(w: &[u64], syncs: u64, p: usize) -> bool
    requires { Bounded w.now × (p < No.places) }
    ensures { result ≡ living_row w.now syncs p }
{
    let number = row_work::word(w, p, process::NUMBER);
    (code::LOWEST_WORD <= row_work::word(w, p, process::PRIORITY))
        & (slaves_known(w, syncs, p)
            & (((1 <= number) & (number <= w[row::LAST])) & (alike(w, number) == 1)))
}

fn place_fits(w: &[u64], syncs: u64, p: usize) -> bool
    requires { Bounded w.now × (p < No.places) }
    ensures { result ≡ place_fits w.now syncs p }
{
    if row_work::word(w, p, process::DEPTH) == 0 {
        return vacant(w, p);
    }
    living(w, syncs, p)
}

fn places_fit(w: &[u64], syncs: u64) -> bool
    requires { Bounded w.now }
    ensures { result ≡ each No.places (place_fits w.now syncs) }
{
    let mut ok = true;
    let mut p = 0;
    while p < limit::PLACES {
        ok = place_fits(w, syncs, p) & ok;
        p += 1;
    }
    ok
}

// ---- how often place p is listed

fn in_events(w: &[u64], p: u64) -> usize
    requires { Bounded w.now }
    ensures { (result ≡ in_events w.now p) × (result ≤ Row.EVENTS_MOST) }
{
    let n = w[row::EVENTS] as usize;
    let mut found = 0;
    let mut k = 0;
    while k < n {
        let word = w[row::NOTICES + k];
        found = one_if(
            (base_ordered::kind_of(word) == notice::WAKES) & (p == base_ordered::number_of(word)),
        ) + found;
        k += 1;
    }
    found
}

fn in_queue(w: &[u64], from: usize, count: usize, p: u64) -> usize
    requires { Lined w.now from count }
    ensures { (result ≡ in_queue w.now from count p) × (result ≤ Row.WAITERS_MOST) }
{
    let n = w[count] as usize;
    let mut found = 0;
    let mut k = 0;
    while k < n {
        found = one_if(p == w[from + k] % word::PLACES) + found;
        k += 1;
    }
    found
}

fn in_waiting(w: &[u64], syncs: usize, p: u64) -> usize
    requires { Bounded w.now × (syncs ≤ Limit.THINGS) }
    ensures { (result ≡ in_waiting w.now syncs p) × (result ≤ Row.WAITERS_ALL) }
{
    let mut found = 0;
    let mut i = 0;
    while i < syncs {
        found = in_queue(w, row::WAITING + row::WAITERS_MOST * i, row::WAITS + i, p) + found;
        i += 1;
    }
    found
}

fn in_slaves(w: &[u64], p: u64, q: usize) -> usize
    requires { Bounded w.now × (q < No.places) }
    ensures { (result ≡ in_slaves w.now p q) × (result ≤ No.places) }
{
    let n = row_work::word(w, q, process::SLAVES) as usize;
    let mut found = 0;
    let mut k = 0;
    while k < n {
        found = one_if(p == row_work::word(w, q, process::OWNED + k) % word::PLACES) + found;
        k += 1;
    }
    found
}

fn owned(w: &[u64], p: u64) -> usize
    requires { Bounded w.now }
    ensures { (result ≡ owned w.now p) × (result ≤ No.places * No.places) }
{
    let mut found = 0;
    let mut q = 0;
    while q < limit::PLACES {
        found = in_slaves(w, p, q) + found;
        q += 1;
    }
    found
}

// Whether it is listed once where somebody lives there, and nowhere else.
fn place_listed(w: &[u64], syncs: usize, p: usize) -> bool
    requires { Bounded w.now × ((syncs ≤ Limit.THINGS) × (p < No.places)) }
    ensures { result ≡ place_listed w.now syncs p }
{
    let at = p as u64;
    let waiting = in_waiting(w, syncs, at) + owned(w, at);
    let listed = in_events(w, at) + (in_queue(w, row::QUEUE, row::BLOCKED, at) + waiting);
    one_if(w[row::FLOOR] == at + 1) + listed == one_if(row_work::word(w, p, process::DEPTH) != 0)
}

fn in_one(w: &[u64], syncs: usize) -> bool
    requires { Bounded w.now × (syncs ≤ Limit.THINGS) }
    ensures { result ≡ each No.places (place_listed w.now syncs) }
{
    let mut ok = true;
    let mut p = 0;
    while p < limit::PLACES {
        ok = place_listed(w, syncs, p) & ok;
        p += 1;
    }
    ok
}

// ---- amounts

fn held_all(w: &[u64], i: usize) -> u64
    requires { Bounded w.now × (i < Limit.THINGS) }
    ensures { (result ≡ held_all w.now i) × (result ≤ No.places * Limit.AMOUNT) }
{
    let mut found = 0;
    let mut q = 0;
    while q < limit::PLACES {
        found = row_work::word(w, q, process::HELD + i) + found;
        q += 1;
    }
    found
}

fn returning_at(w: &[u64], i: u64, k: usize) -> u64
    requires { (length w.now ≡ Row.WORDS) × (k < Row.EVENTS_MOST) }
    ensures { (result ≡ returning_at w.now i k) × (result < Word.AMOUNTS) }
{
    let word = w[row::NOTICES + k];
    let here = (base_ordered::kind_of(word) == notice::RESOURCE)
        & (i == base_ordered::number_of(word));
    if here {
        base_ordered::amount_of(word)
    } else {
        0
    }
}

fn returning_all(w: &[u64], i: u64) -> u64
    requires { Bounded w.now }
    ensures { (result ≡ returning_all w.now i) × (result ≤ Row.EVENTS_MOST * Word.AMOUNTS) }
{
    let n = w[row::EVENTS] as usize;
    let mut found = 0;
    let mut k = 0;
    while k < n {
        found = returning_at(w, i, k) + found;
        k += 1;
    }
    found
}

fn amounts_add<'a>(w: &'a [u64], totals: &'a [u64], i: usize) -> bool
    requires { Bounded w.now × ((i < Limit.THINGS) × (i < length totals.now)) }
    ensures { result ≡ amounts_add w.now totals.now i }
{
    w[row::FREE + i] + held_all(w, i) + returning_all(w, i as u64) == totals[i]
}

fn adds_up<'a>(w: &'a [u64], totals: &'a [u64], resources: usize) -> bool
    requires { Bounded w.now × ((resources ≤ Limit.THINGS) × (resources ≤ length totals.now)) }
    ensures { result ≡ each resources (amounts_add w.now totals.now) }
{
    let mut ok = true;
    let mut i = 0;
    while i < resources {
        ok = amounts_add(w, totals, i) & ok;
        i += 1;
    }
    ok
}

// ---- all of it

// Whether a row that shows a state shows one that is sound, its blocks apart, where the model declares so many things, with
// these totals of its resources.
pub fn sound_beside<'a>(
    w: &'a [u64],
    totals: &'a [u64],
    resources: usize,
    bins: usize,
    syncs: usize,
) -> bool
    requires { Counted w.now totals.now resources bins syncs }
    ensures { (v : Counted w.now totals.now resources bins syncs)
        → result ≡ sound_beside v.model v.is }
{
    let few = row_lists::returns(w) <= limit::RETURNS;
    let places = places_fit(w, syncs as u64) & in_one(w, syncs);
    let lists = events_fit(w, resources as u64, bins as u64)
        & (queue_fits(w, row::QUEUE, row::BLOCKED) & waiting_fits(w, syncs));
    (few & (places & lists)) & adds_up(w, totals, resources)
}
