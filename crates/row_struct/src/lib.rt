// An open run's state as a struct of arrays, by value. The engine works on one lent row of numbers (crate row_work): the struct
// is unpacked into it when a call begins and packed from it when the call ends.
#![tactic(auto)]

ghost use Rattle.std.specs.Prelude.{◌≡◌, ◌+◌, ◌≤◌, length, take, drop};
ghost use Rattle.semantics.specs.Words.{collect};
ghost use Rattle.semantics.specs.Numbers as No;
ghost use Rattle.base_numbers.specs.Row as Row;
ghost use Rattle.base_numbers.specs.Process as Parts;
ghost use Rattle.base_numbers.specs.Limit as Limit;
ghost use Rattle.row_struct.specs.State.{over, process_row_of, row_of, ProcessFull, ProcessesFull, Full};

use base_numbers::{limit, process, row};

// A process: its number, the code of its priority, how many blocks it is in and how many slaves it has; the codes of its locals,
// what it holds, its blocks, and its slaves in the order claimed. What is not used is 0.
#[derive(Clone, Copy)]
pub struct Process {
    pub number: u64,
    pub priority: u64,
    pub depth: u64,
    pub slaves: u64,
    pub locals: [u64; limit::LOCALS],
    pub held: [u64; limit::THINGS],
    pub blocks: [u64; limit::DEPTH],
    pub owned: [u64; process::OWNED_MOST],
}

// A state: the clock, whether it is closed, the last number given, who has the floor (0 for nobody, else the place and 1), the
// living places as bits, how many events and how many blocked there are, and 0. Then by number what is free, the bins, the codes
// of the variables and how many wait for each sync; the blocked list; the keys of the events and what they do; 64 words for each
// sync's waiting list; the processes by place; and the seeds of the samplers.
#[derive(Clone, Copy)]
pub struct State {
    pub clock: u64,
    pub closed: u64,
    pub last: u64,
    pub floor: u64,
    pub living: u64,
    pub events: u64,
    pub blocked: u64,
    pub spare: u64,
    pub free: [u64; limit::THINGS],
    pub bins: [u64; limit::THINGS],
    pub globals: [u64; limit::THINGS],
    pub waits: [u64; limit::THINGS],
    pub queue: [u64; limit::PLACES],
    pub keys: [u64; row::EVENTS_MOST],
    pub words: [u64; row::EVENTS_MOST],
    pub waiting: [u64; row::WAITERS_ALL],
    pub processes: [Process; limit::PLACES],
    pub seeds: [u64; limit::SAMPLERS],
}

// A part of a row, laid over what stands there from `at` on.
fn lay(part: &[u64], w: &mut [u64], at: usize)
    requires { at + length part.now ≤ length w.old }
    ensures { w.new ≡ over at part.now w.old }
{
    let to = at + part.len();
    row_work::copy_words(part, &mut w[at..to]);
}

// ---- from the struct to the row

// The row of a process; and its arrays have their lengths.
fn unpack_process(q: Process, w: &mut [u64])
    requires { length w.old ≡ Parts.WORDS }
    ensures w_after { w.new ≡ process_row_of q }
    ensures process_full { ProcessFull q }
{
    let head = [q.number, q.priority, q.depth, q.slaves];
    lay(&head, w, 0);
    lay(&q.locals, w, process::LOCALS);
    lay(&q.held, w, process::HELD);
    lay(&q.blocks, w, process::BLOCKS);
    lay(&q.owned, w, process::OWNED);
}

// The rows of all processes.
fn unpack_processes(ps: [Process; limit::PLACES], w: &mut [u64])
    requires { length w.old ≡ Row.PROCESSES_ALL }
    ensures w_after { w.new ≡ collect process_row_of ps }
    ensures processes_full { ProcessesFull ps }
{
    let mut p = 0;
    while p < limit::PLACES {
        let q = ps[p];
        let from = process::WORDS * p;
        let to = from + process::WORDS;
        unpack_process(q, &mut w[from..to]);
        p += 1;
    }
}

// The row of a state; and its arrays have their lengths, so that the row is of no other state (`same_state`).
pub fn unpack(state: State, w: &mut [u64])
    requires { length w.old ≡ Row.WORDS }
    ensures w_after { w.new ≡ row_of state }
    ensures full { Full state }
{
    let head = [
        state.clock,
        state.closed,
        state.last,
        state.floor,
        state.living,
        state.events,
        state.blocked,
        state.spare,
    ];
    lay(&head, w, 0);
    lay(&state.free, w, row::FREE);
    lay(&state.bins, w, row::BINS);
    lay(&state.globals, w, row::GLOBALS);
    lay(&state.waits, w, row::WAITS);
    lay(&state.queue, w, row::QUEUE);
    lay(&state.keys, w, row::KEYS);
    lay(&state.words, w, row::NOTICES);
    lay(&state.waiting, w, row::WAITING);
    let ps = state.processes;
    unpack_processes(ps, &mut w[row::PROCESSES..row::SEEDS]);
    lay(&state.seeds, w, row::SEEDS);
}

// ---- from the row to the struct

// The part of a row from `at` on, as much as `part` has room for.
fn lift(w: &[u64], at: usize, part: &mut [u64])
    requires { at + length part.old ≤ length w.now }
    ensures { part.new ≡ take (length part.old) (drop at w.now) }
{
    let to = at + part.len();
    row_work::copy_words(&w[at..to], part);
}

// The part as an array of each length that a field has.
fn eight_at(w: &[u64], at: usize) -> [u64; limit::LOCALS]
    requires { at + No.locals ≤ length w.now }
    ensures { result ≡ take No.locals (drop at w.now) }
{
    let mut part = [0u64; limit::LOCALS];
    lift(w, at, &mut part);
    part
}

fn amounts_at(w: &[u64], at: usize) -> [u64; limit::THINGS]
    requires { at + Limit.THINGS ≤ length w.now }
    ensures { result ≡ take Limit.THINGS (drop at w.now) }
{
    let mut part = [0u64; limit::THINGS];
    lift(w, at, &mut part);
    part
}

fn seeds_at(w: &[u64], at: usize) -> [u64; limit::SAMPLERS]
    requires { at + Limit.SAMPLERS ≤ length w.now }
    ensures { result ≡ take Limit.SAMPLERS (drop at w.now) }
{
    let mut part = [0u64; limit::SAMPLERS];
    lift(w, at, &mut part);
    part
}

fn places_at(w: &[u64], at: usize) -> [u64; limit::PLACES]
    requires { at + No.places ≤ length w.now }
    ensures { result ≡ take No.places (drop at w.now) }
{
    let mut part = [0u64; limit::PLACES];
    lift(w, at, &mut part);
    part
}

fn slaves_at(w: &[u64], at: usize) -> [u64; process::OWNED_MOST]
    requires { at + Parts.OWNED_MOST ≤ length w.now }
    ensures { result ≡ take Parts.OWNED_MOST (drop at w.now) }
{
    let mut part = [0u64; process::OWNED_MOST];
    lift(w, at, &mut part);
    part
}

fn events_at(w: &[u64], at: usize) -> [u64; row::EVENTS_MOST]
    requires { at + Row.EVENTS_MOST ≤ length w.now }
    ensures { result ≡ take Row.EVENTS_MOST (drop at w.now) }
{
    let mut part = [0u64; row::EVENTS_MOST];
    lift(w, at, &mut part);
    part
}

fn waiting_at(w: &[u64], at: usize) -> [u64; row::WAITERS_ALL]
    requires { at + Row.WAITERS_ALL ≤ length w.now }
    ensures { result ≡ take Row.WAITERS_ALL (drop at w.now) }
{
    let mut part = [0u64; row::WAITERS_ALL];
    lift(w, at, &mut part);
    part
}

// The process whose row this is.
fn pack_process(w: &[u64]) -> Process
    requires { length w.now ≡ Parts.WORDS }
    ensures result_value { process_row_of result ≡ w.now }
    ensures process_full { ProcessFull result }
{
    let locals = eight_at(w, process::LOCALS);
    let held = amounts_at(w, process::HELD);
    let blocks = eight_at(w, process::BLOCKS);
    let owned = slaves_at(w, process::OWNED);
    Process {
        number: w[process::NUMBER],
        priority: w[process::PRIORITY],
        depth: w[process::DEPTH],
        slaves: w[process::SLAVES],
        locals,
        held,
        blocks,
        owned,
    }
}

// The processes whose rows these are.
fn pack_processes(w: &[u64]) -> [Process; limit::PLACES]
    requires { length w.now ≡ Row.PROCESSES_ALL }
    ensures result_value { collect process_row_of result ≡ w.now }
    ensures processes_full { ProcessesFull result }
{
    let first = pack_process(&w[0..process::WORDS]);
    let mut ps = [first; limit::PLACES];
    let mut p = 1;
    while p < limit::PLACES {
        let from = process::WORDS * p;
        let to = from + process::WORDS;
        ps[p] = pack_process(&w[from..to]);
        p += 1;
    }
    ps
}

// The state whose row this is. There is one only (`same_state`).
pub fn pack(w: &[u64]) -> State
    requires { length w.now ≡ Row.WORDS }
    ensures result_value { row_of result ≡ w.now }
    ensures full { Full result }
{
    let free = amounts_at(w, row::FREE);
    let bins = amounts_at(w, row::BINS);
    let globals = amounts_at(w, row::GLOBALS);
    let waits = amounts_at(w, row::WAITS);
    let queue = places_at(w, row::QUEUE);
    let keys = events_at(w, row::KEYS);
    let words = events_at(w, row::NOTICES);
    let waiting = waiting_at(w, row::WAITING);
    let processes = pack_processes(&w[row::PROCESSES..row::SEEDS]);
    let seeds = seeds_at(w, row::SEEDS);
    State {
        clock: w[row::CLOCK],
        closed: w[row::CLOSED],
        last: w[row::LAST],
        floor: w[row::FLOOR],
        living: w[row::LIVING],
        events: w[row::EVENTS],
        blocked: w[row::BLOCKED],
        spare: w[row::SPARE],
        free,
        bins,
        globals,
        waits,
        queue,
        keys,
        words,
        waiting,
        processes,
        seeds,
    }
}
