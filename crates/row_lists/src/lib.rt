// The event list, the blocked list and the waiting lists in the work: who comes into one, and who leaves it.
#![tactic(auto)]

ghost use Rattle.std.specs.Prelude.{◌≡◌, map, ◌≤◌, ◌<◌, length, get_or};
ghost use Rattle.semantics.specs.Numbers as No;
ghost use Rattle.semantics.specs.Words.{keep};
ghost use Rattle.semantics.specs.State.{returns_r, returns_b, wake};
ghost use Rattle.semantics.specs.Step.{is_return};
ghost use Rattle.base_numbers.specs.Word as Word;
ghost use Rattle.base_ordered.specs.Lines.{key_of, waiter_key};
ghost use Rattle.row_work.specs.Work.{Doing, Done};
ghost use Rattle.row_process.specs.Process.{Lives, Shown};
ghost use Rattle.row_lists.specs.Lists.{Any, Entering, Entered, Putting, Put};
ghost use Rattle.row_lists.specs.Lists.{Notifying, Notified, returned, Due, Dropped, first_out, FirstOut};
ghost use Rattle.row_lists.specs.Lists.{PuttingBack, PutBack};
ghost use Rattle.row_lists.specs.Lists.{waiter_of, join_blocked, unblocked, IsBlocked, Becomes, join_waiting, Waits};
ghost use Rattle.row_lists.specs.Lists.{taken_waiting, TakenWaiting};
ghost use Rattle.row_lists.specs.Queues.{before, Seeking, Sought, Joining, Joined, Parting, Parted};

use base_numbers::{code, notice, process, row, word};

// ---- the event list

// An event, by its key and its word, put in at a place.
fn put_event(w: &mut [u64], at: usize, key: u64, word: u64)
    requires { Putting w.old at key word }
    ensures { Put w.old at key word w.new }
{
    let n = w[row::EVENTS] as usize;
    base_ordered::put_in(&mut w[row::KEYS..row::NOTICES], n, at, key);
    base_ordered::put_in(&mut w[row::NOTICES..row::WAITING], n, at, word);
    w[row::EVENTS] = n as u64 + 1;
}

// An event behind those whose key is at most its own.
fn enter(w: &mut [u64], key: u64, word: u64)
    requires { Entering w.old key word }
    ensures { Entered w.old key word w.new }
{
    let n = w[row::EVENTS] as usize;
    let at = base_ordered::place_below(&w[row::KEYS..row::NOTICES], n, key + 1);
    put_event(w, at, key, word);
}

// The key of a time and a rank, which is the code of a priority.
fn key_of(time: u64, rank: u64) -> u64
    requires { (time ≤ No.latest) × (rank < Word.RANKS) }
    ensures { result ≡ key_of time rank }
{
    time * word::TIME + (code::HIGHEST - rank)
}

// The process in place p enters at time t.
pub fn wake(w: &mut [u64], t: u64, p: usize)
    requires { Doing w.old (Lives p) (λ s. wake t p s) }
    ensures { Done w.old (Lives p) (λ s. wake t p s) w.new }
{
    let key = key_of(t, row_work::word(w, p, process::PRIORITY));
    enter(w, key, base_ordered::pack(notice::WAKES, p as u64, 0, 0));
}

// A return notice, by its word, enters now.
fn notify(w: &mut [u64], word: u64)
    requires { Notifying w.old word }
    ensures { Notified w.old word w.new }
{
    let key = key_of(w[row::CLOCK], code::OF_RETURNS);
    enter(w, key, word);
}

// The return of n of resource i enters now, given by the process of number g.
pub fn return_resource(w: &mut [u64], i: u64, n: u64, g: u64)
    requires { Doing w.old Any (returned (returns_r i n g)) }
    ensures { Done w.old Any (returned (returns_r i n g)) w.new }
{
    notify(w, base_ordered::pack(notice::RESOURCE, i, n, g));
}

// The same of bin i.
pub fn return_bin(w: &mut [u64], i: u64, n: u64, g: u64)
    requires { Doing w.old Any (returned (returns_b i n g)) }
    ensures { Done w.old Any (returned (returns_b i n g)) w.new }
{
    notify(w, base_ordered::pack(notice::BIN, i, n, g));
}

// How many returns there are.
pub fn returns(w: &[u64]) -> usize
    requires { Shown w.now Any }
    ensures { (v : Shown w.now Any) → result ≡ length (keep is_return v.is.events) }
{
    let n = w[row::EVENTS] as usize;
    base_ordered::count_returns(&w[row::NOTICES..row::WAITING], n)
}

// The first event is gone.
fn drop_first(w: &mut [u64])
    requires { Shown w.old Due }
    ensures { Dropped w.old w.new }
{
    let n = w[row::EVENTS] as usize;
    base_ordered::take_out(&mut w[row::KEYS..row::NOTICES], n, 0);
    base_ordered::take_out(&mut w[row::NOTICES..row::WAITING], n, 0);
    w[row::EVENTS] = n as u64 - 1;
}

// The first event leaves the list, and the clock becomes its time: what it does, in one word.
pub fn take_first(w: &mut [u64]) -> u64
    requires { Doing w.old Due first_out }
    ensures { (d : Doing w.old Due first_out) → FirstOut w.old result w.new d }
{
    let key = w[row::KEYS];
    let word = w[row::NOTICES];
    drop_first(w);
    w[row::CLOCK] = key / word::TIME;
    word
}

// What `take_first` did is undone.
pub fn put_back(w: &mut [u64], clock: u64, key: u64, word: u64)
    requires { PuttingBack w.old clock key word }
    ensures { PutBack w.old clock key word w.new }
{
    put_event(w, 0, key, word);
    w[row::CLOCK] = clock;
}

// ---- those that wait, wherever their list stands

// The place behind those whose key is at most this one, in the list from `from` on that has its number at `count`.
fn place_behind(w: &[u64], from: usize, count: usize, key: u64) -> usize
    requires { Seeking w.now from count key }
    ensures { (d : Seeking w.now from count key) → Sought w.now from count key result d }
{
    let n = w[count] as usize;
    base_ordered::place_below(&w[from..from + row::WAITERS_MOST], n, word::KEY * (key + 1))
}

// One of this key and this place joins behind them.
fn join_at(w: &mut [u64], from: usize, count: usize, key: u64, place: u64)
    requires { Joining w.old from count key place }
    ensures { Joined w.old from count key place w.new }
{
    let at = place_behind(w, from, count, key);
    let n = w[count] as usize;
    base_ordered::put_in(
        &mut w[from..from + row::WAITERS_MOST],
        n,
        at,
        word::KEY * key + place,
    );
    w[count] = n as u64 + 1;
}

// The one at k leaves.
fn leave_at(w: &mut [u64], from: usize, count: usize, k: usize)
    requires { Parting w.old from count k }
    ensures { Parted w.old from count k w.new }
{
    let n = w[count] as usize;
    base_ordered::take_out(&mut w[from..from + row::WAITERS_MOST], n, k);
    w[count] = n as u64 - 1;
}

// The key by which the process in place p waits.
fn waiter_key(w: &[u64], p: usize) -> u64
    requires { Shown w.now (λ s. p < No.places) }
    ensures { (v : Shown w.now (λ s. p < No.places)) → result ≡ waiter_key (waiter_of v.is p) }
{
    code::HIGHEST - row_work::word(w, p, process::PRIORITY)
}

// ---- the blocked list

// The process in place p joins the blocked list.
pub fn join_blocked(w: &mut [u64], p: usize)
    requires { Doing w.old (Lives p) (join_blocked p) }
    ensures { Done w.old (Lives p) (join_blocked p) w.new }
{
    let key = waiter_key(w, p);
    join_at(w, row::QUEUE, row::BLOCKED, key, p as u64);
}

// How many of the blocked are of p's priority or a higher one.
pub fn place_in_front(w: &[u64], p: usize) -> usize
    requires { Shown w.now (λ s. p < No.places) }
    ensures { (v : Shown w.now (λ s. p < No.places)) →
        (result ≡ before (waiter_of v.is p) v.is.blocked) × (result ≤ length v.is.blocked) }
{
    let key = waiter_key(w, p);
    place_behind(w, row::QUEUE, row::BLOCKED, key)
}

// The place of the blocked one at k.
pub fn blocked_at(w: &[u64], k: usize) -> usize
    requires { Shown w.now (IsBlocked k) }
    ensures { ((v : Shown w.now (IsBlocked k)) →
        result ≡ get_or (map (λ x. x.place) v.is.blocked) k 0) × (result < No.places) }
{
    (w[row::QUEUE + k] % word::PLACES) as usize
}

// The blocked one at k leaves the list.
pub fn unblock(w: &mut [u64], k: usize)
    requires { Doing w.old (IsBlocked k) (unblocked k) }
    ensures { Done w.old (IsBlocked k) (unblocked k) w.new }
{
    leave_at(w, row::QUEUE, row::BLOCKED, k);
}

// ---- the waiting lists

// The process in place p joins the waiting list of sync i.
pub fn join_waiting(w: &mut [u64], i: usize, p: usize)
    requires { Doing w.old (Becomes i p) (join_waiting i p) }
    ensures { Done w.old (Becomes i p) (join_waiting i p) w.new }
{
    let key = waiter_key(w, p);
    join_at(
        w,
        row::WAITING + row::WAITERS_MOST * i,
        row::WAITS + i,
        key,
        p as u64,
    );
}

// The first of the waiting list of sync i leaves it: its place.
pub fn take_waiting(w: &mut [u64], i: usize) -> usize
    requires { Doing w.old (Waits i) (taken_waiting i) }
    ensures { (d : Doing w.old (Waits i) (taken_waiting i)) →
        TakenWaiting w.old i result w.new d }
{
    let place = (w[row::WAITING + row::WAITERS_MOST * i] % word::PLACES) as usize;
    leave_at(w, row::WAITING + row::WAITERS_MOST * i, row::WAITS + i, 0);
    place
}
