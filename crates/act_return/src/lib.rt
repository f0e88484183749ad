// Return notices: what comes back is added, and then it is walked.
#![tactic(auto)]

ghost use Rattle.std.specs.Prelude.{◌≡◌, ◌+◌, ◌≤◌, ◌<◌, length, get_or, set};
ghost use Rattle.semantics.specs.Numbers as No;
ghost use Rattle.semantics.specs.State.{returns_r, returns_b};
ghost use Rattle.semantics.specs.Step.{occurs};
ghost use Rattle.base_numbers.specs.Byte as Byte;
ghost use Rattle.row_process.specs.Process.{Shown};
ghost use Rattle.act_floor.specs.Acting.{Roomy, Stepped};
ghost use Rattle.act_return.specs.Returning.{Returning};

use act_floor::Went;
use base_numbers::{fault, limit, line, row};

// What is in bin i.
fn bin_of(w: &[u64], i: usize) -> u64
    requires { Shown w.now (λ s. i < length s.bins) }
    ensures { ((v : Shown w.now (λ s. i < length s.bins)) → result ≡ get_or v.is.bins i 0)
        × (result ≤ No.full_bin) }
{
    w[row::BINS + i]
}

// The number at `at` becomes n more.
fn add_at(w: &mut [u64], at: usize, n: u64)
    requires { (at < length w.old) × (get_or w.old at 0 + n < Byte.EIGHT) }
    ensures { w.new ≡ set w.old at (get_or w.old at 0 + n) }
{
    let there = w[at];
    w[at] = there + n;
}

// n of resource i come back, given by the process of number g.
pub fn resource_back<'a>(
    i: usize,
    n: u64,
    g: u64,
    s: &'a [u8],
    map: &'a [u32],
    w: &'a mut [u64],
    out: &'a mut [u8],
    at: usize,
) -> Went
    requires returning { Returning s.now map.now w.old (returns_r i n g) }
    requires roomy { Roomy at out.old }
    ensures { (v : Returning s.now map.now w.old (returns_r i n g))
        → Stepped (occurs v.run.model v.run.is (returns_r i n g)) result.fault result.lines
        w.old w.new at out.old out.new }
{
    act_walk::note(w, out, at, line::RESOURCE_RETURNED, g, i);
    add_at(w, row::FREE + i, n);
    let lines = act_walk::walk(s, map, w, out, at + 1);
    Went {
        fault: 0,
        lines: lines + 1,
    }
}

// n come back into bin i, if it can hold them.
pub fn bin_back<'a>(
    i: usize,
    n: u64,
    g: u64,
    s: &'a [u8],
    map: &'a [u32],
    w: &'a mut [u64],
    out: &'a mut [u8],
    at: usize,
) -> Went
    requires returning { Returning s.now map.now w.old (returns_b i n g) }
    requires roomy { Roomy at out.old }
    ensures { (v : Returning s.now map.now w.old (returns_b i n g))
        → Stepped (occurs v.run.model v.run.is (returns_b i n g)) result.fault result.lines
        w.old w.new at out.old out.new }
{
    if limit::FULL_BIN < bin_of(w, i) + n {
        return Went {
            fault: fault::BIN,
            lines: 0,
        };
    }
    act_walk::note(w, out, at, line::BIN_RETURNED, g, i);
    add_at(w, row::BINS + i, n);
    let lines = act_walk::walk(s, map, w, out, at + 1);
    Went {
        fault: 0,
        lines: lines + 1,
    }
}
