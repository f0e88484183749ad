// Whether a row of words shows a state that the work can hold, for any row.
#![tactic(auto)]

ghost use Rattle.std.specs.Prelude.{◌≡◌, true, false, ◌*◌, ◌≤◌, length};
ghost use Rattle.semantics.specs.Numbers as No;
ghost use Rattle.semantics.specs.Words.{all};
ghost use Rattle.semantics.specs.Model.{Model};
ghost use Rattle.base_numbers.specs.Row as Row;
ghost use Rattle.base_numbers.specs.Process as Process;
ghost use Rattle.base_numbers.specs.Limit as Limit;
ghost use Rattle.row_view.specs.View.{seated as seated_of};
ghost use Rattle.row_view.specs.Fits.{Counted, Showing, Few, frame_fits, return_fits, notice_fits, passes, fits};
ghost use Rattle.row_view.specs.Fits.{waiting_fits, process_fits, place_fits, processes_fit, head_fits, things_fit, lists_fit};

use base_numbers::{limit, most, notice, process, row, word};

// The words of wakes are below this.
const WAKES: u64 = word::KINDS * most::PLACES;

// ---- words and rows of words

// What is asked of a word: that it is at most a number, or the word of a block, or of what an event does, or a seed.
#[derive(Clone, Copy)]
enum Rule {
    Most(u64),
    Frame,
    Notice,
    Seed,
}

// Whether x is the word of a block that a process is in.
fn frame_fits(x: u64) -> bool
    ensures { result ≡ frame_fits x }
{
    (x % word::BLOCKS < most::BLOCKS)
        & ((x / word::ACTION % word::ACTIONS <= most::ACTIONS) & (x / word::ROUND < word::ROUNDS))
}

// Whether x is the word of a return.
fn return_fits(x: u64) -> bool
    ensures { result ≡ return_fits x }
{
    (x % word::KINDS < 3)
        & ((x / word::KINDS % word::NUMBERS < most::THINGS)
            & ((x / word::AMOUNT % word::AMOUNTS <= most::AMOUNT)
                & (x / word::GIVER <= limit::LAST_NUMBER)))
}

// Whether x is the word of what an event does.
fn notice_fits(x: u64) -> bool
    ensures { result ≡ notice_fits x }
{
    if x % word::KINDS == notice::WAKES {
        return x < WAKES;
    }
    return_fits(x)
}

// Whether x is as the rule asks.
fn word_fits(x: u64, rule: Rule) -> bool
    ensures { result ≡ passes rule x }
{
    match rule {
        Rule::Most(most) => x <= most,
        Rule::Frame => frame_fits(x),
        Rule::Notice => notice_fits(x),
        Rule::Seed => (1 <= x) & (x <= limit::SEED_WORD),
    }
}

// Whether each word fits.
fn words_fit(row: &[u64], rule: Rule) -> bool
    ensures { result ≡ all (passes rule) row.now }
{
    let mut ok = true;
    let mut i = 0;
    while i < row.len() {
        ok = ok & word_fits(row[i], rule);
        i += 1;
    }
    ok
}

// Whether the first n words fit, and nothing stands behind them.
fn row_fits(row: &[u64], n: u64, rule: Rule) -> bool
    ensures { result ≡ fits (passes rule) n row.now }
{
    let k = n as usize;
    if row.len() < k {
        return false;
    }
    words_fit(&row[0..k], rule) & words_fit(&row[k..], Rule::Most(0))
}

// ---- processes

// n, or nothing of one that is in no block.
fn seated(d: u64, n: u64) -> u64
    ensures { result ≡ seated_of d n }
{
    if d == 0 { 0 } else { n }
}

// Whether a row of 128 is that of a process.
fn process_fits(row: &[u64], resources: u64) -> bool
    requires { length row.now ≡ Process.WORDS }
    ensures { result ≡ process_fits resources row.now }
{
    let d = row[process::DEPTH];
    let n = row[process::SLAVES];
    let numbers = (row[process::NUMBER] <= limit::LAST_NUMBER)
        & (row[process::PRIORITY] <= most::CODE);
    let locals = row_fits(
        &row[process::LOCALS..process::HELD],
        seated(d, most::LOCALS),
        Rule::Most(most::CODE),
    );
    let held = row_fits(
        &row[process::HELD..process::BLOCKS],
        seated(d, resources),
        Rule::Most(most::AMOUNT),
    );
    let frames = row_fits(&row[process::BLOCKS..process::OWNED], d, Rule::Frame);
    let slaves = (n <= most::PLACES)
        & row_fits(
            &row[process::OWNED..process::WORDS],
            n,
            Rule::Most(most::SLAVE),
        );
    numbers & (locals & (held & (frames & slaves)))
}

// Whether it is, and `digit` is 1 if the process lives, and else 0.
fn place_fits(row: &[u64], resources: u64, digit: u64) -> bool
    requires { length row.now ≡ Process.WORDS }
    ensures { result ≡ place_fits resources row.now digit }
{
    let lives = seated(row[process::DEPTH], 1);
    process_fits(row, resources) & (digit == lives)
}

// Whether the rows are those of 64 processes of which those live that `living` says.
fn processes_fit(rows: &[u64], resources: u64, living: u64) -> bool
    requires { length rows.now ≡ Row.PROCESSES_ALL }
    ensures { result ≡ processes_fit resources No.places rows.now living }
{
    let mut ok = true;
    let mut digits = living;
    let mut left: usize = limit::PLACES;
    let mut rest = rows;
    while 0 < left {
        ok = ok & place_fits(&rest[0..process::WORDS], resources, digits % 2);
        digits = digits / 2;
        left -= 1;
        rest = &rest[process::WORDS..];
    }
    ok & (digits == 0)
}

// ---- waiting lists

// Whether there is a waiting list of 64 words for each of the counts, and nothing behind them.
fn waiting_fits<'a>(counts: &'a [u64], lists: &'a [u64]) -> bool
    requires { Row.WAITERS_MOST * length counts.now ≤ length lists.now }
    ensures { result ≡ waiting_fits counts.now lists.now }
{
    let mut ok = true;
    let mut i = 0;
    let mut rest = lists;
    while i < counts.len() {
        ok = ok
            & row_fits(
                &rest[0..row::WAITERS_MOST],
                counts[i],
                Rule::Most(most::WAITER),
            );
        i += 1;
        rest = &rest[row::WAITERS_MOST..];
    }
    ok & words_fit(rest, Rule::Most(0))
}

// ---- the work

// The clock, whether the run is closed, the last number given, who has the floor, and the word that is not used.
fn head_fits(w: &[u64]) -> bool
    requires { length w.now ≡ Row.WORDS }
    ensures { result ≡ head_fits w.now }
{
    (w[row::CLOCK] <= limit::LATEST)
        & ((w[row::CLOSED] <= 1)
            & ((w[row::LAST] <= limit::LAST_NUMBER)
                & ((w[row::FLOOR] <= most::PLACES) & (w[row::SPARE] == 0))))
}

// What is free, the bins, the variables, and how many wait for each sync.
fn things_fit(w: &[u64], resources: u64, bins: u64, syncs: u64, variables: u64) -> bool
    requires { length w.now ≡ Row.WORDS }
    ensures { result ≡ things_fit resources bins syncs variables w.now }
{
    let free = row_fits(
        &w[row::FREE..row::BINS],
        resources,
        Rule::Most(most::AMOUNT),
    );
    let binned = row_fits(
        &w[row::BINS..row::GLOBALS],
        bins,
        Rule::Most(limit::FULL_BIN),
    );
    let values = row_fits(
        &w[row::GLOBALS..row::WAITS],
        variables,
        Rule::Most(most::CODE),
    );
    let counts = row_fits(&w[row::WAITS..row::QUEUE], syncs, Rule::Most(most::PLACES));
    free & (binned & (values & counts))
}

// The blocked list, the event list and the waiting lists.
fn lists_fit(w: &[u64], syncs: u64) -> bool
    requires { (length w.now ≡ Row.WORDS) × (syncs ≤ Limit.THINGS) }
    ensures { result ≡ lists_fit syncs w.now }
{
    let blocked = row_fits(
        &w[row::QUEUE..row::KEYS],
        w[row::BLOCKED],
        Rule::Most(most::WAITER),
    );
    let keys = row_fits(
        &w[row::KEYS..row::NOTICES],
        w[row::EVENTS],
        Rule::Most(most::KEY),
    );
    let words = row_fits(&w[row::NOTICES..row::WAITING], w[row::EVENTS], Rule::Notice);
    let to = row::WAITS + (syncs as usize);
    let waiting = waiting_fits(&w[row::WAITS..to], &w[row::WAITING..row::PROCESSES]);
    blocked & (keys & (words & waiting))
}

// Whether w is the one form of a state of a model with so many of each, and the work can hold that state.
pub fn shows(
    resources: usize,
    bins: usize,
    syncs: usize,
    variables: usize,
    samplers: usize,
    w: &[u64],
) -> bool
    requires { Few resources bins syncs variables samplers }
    ensures { (m : Model) → Counted m resources bins syncs variables samplers →
        (result ≡ true → Showing m w.now) × (result ≡ false → Showing m w.now → ⊥) }
{
    if w.len() != row::WORDS {
        return false;
    }
    let head = head_fits(w);
    let things = things_fit(
        w,
        resources as u64,
        bins as u64,
        syncs as u64,
        variables as u64,
    );
    let lists = lists_fit(w, syncs as u64);
    let processes = processes_fit(
        &w[row::PROCESSES..row::SEEDS],
        resources as u64,
        w[row::LIVING],
    );
    let seeds = row_fits(&w[row::SEEDS..row::WORDS], samplers as u64, Rule::Seed);
    head & (things & (lists & (processes & seeds)))
}
