// A claim is taken, an offer is granted, who is barred, and which branch is taken.
#![tactic(auto)]

ghost use Rattle.std.specs.Prelude.{◌≡◌, ◌+◌, ◌≤◌, length, get_or, take};
ghost use Rattle.semantics.specs.Words.{fewer};
ghost use Rattle.semantics.specs.Model.{resource, get};
ghost use Rattle.semantics.specs.Record.{item_of};
ghost use Rattle.semantics.specs.State.{with_bins};
ghost use Rattle.semantics.specs.Claim.{take_item, take_all, grant, offers, bars, asks, barred, choice};
ghost use Rattle.base_numbers.specs.Map as Map;
ghost use Rattle.row_work.specs.Work.{work_of, Doing, Done};
ghost use Rattle.row_process.specs.Process.{Shown, Lives};
ghost use Rattle.row_claim.specs.Choices.{choice_in, branch_in};
ghost use Rattle.row_grant.specs.Grant.{Takes, InBin, Taking, Granting, Facing};
ghost use Rattle.row_grant.specs.Wants.{wanted_by};
ghost use Rattle.row_grant.specs.Standing.{place_at};

use base_numbers::{item, map, row};
use row_claim::{Branch, Choice, Reason};

// ---- a claim is taken

// n of resource i.
fn take_resource(w: &mut [u64], p: usize, i: usize, n: u64)
    requires { Doing w.old (Takes p (get resource i n)) (take_item p (get resource i n)) }
    ensures { Done w.old (Takes p (get resource i n)) (take_item p (get resource i n)) w.new }
{
    let free = w[row::FREE + i];
    w[row::FREE + i] = free - n;
    row_process::take_up(w, p, i, n);
}

// n of bin i.
fn take_bin(w: &mut [u64], i: usize, n: u64)
    requires { Doing w.old (InBin i n) (λ s. with_bins s (fewer s.bins i n)) }
    ensures { Done w.old (InBin i n) (λ s. with_bins s (fewer s.bins i n)) w.new }
{
    let there = w[row::BINS + i];
    w[row::BINS + i] = there - n;
}

// An item as its bytes say it: what kind of thing it names, the thing's number, and how much of it.
#[derive(Drop)]
struct Wanted {
    kind: u32,
    number: usize,
    amount: u64,
}

fn read_item(i: &[u8]) -> Wanted
    requires { 8 ≤ length i.now }
    ensures { result ≡ wanted_by i.now }
{
    Wanted {
        kind: file_fields::u8_at(i, 0),
        number: base_wide::index(file_fields::u16_at(i, 2)),
        amount: base_wide::wide(file_fields::u32_at(i, 4)),
    }
}

// The item whose 8 bytes are i.
fn take_item<'a>(i: &'a [u8], w: &'a mut [u64], p: usize)
    requires { Doing w.old (Takes p (item_of i.now)) (take_item p (item_of i.now)) × (8 ≤ length i.now) }
    ensures { Done w.old (Takes p (item_of i.now)) (take_item p (item_of i.now))
        w.new }
{
    let x = read_item(i);
    let kind = x.kind;
    match kind {
        item::GET_R => take_resource(w, p, x.number, x.amount),
        item::GET_B => take_bin(w, x.number, x.amount),
        item::GET_S => row_slaves::claim_slaves(w, p, x.number, x.amount as usize),
        _ => {}
    }
}

// The claim at byte `at`.
fn take_all<'a>(s: &'a [u8], at: usize, w: &'a mut [u64], p: usize)
    requires { Taking s.now at w.old p }
    ensures { (v : Taking s.now at w.old p)
        → w.new ≡ work_of (take_all p v.claim v.run.is) }
{
    let mut left = file_fields::u16_at(s, at);
    let mut rest = &s[at + 2..];
    while 0 < left {
        take_item(&rest[..item::BYTES], w, p);
        rest = &rest[item::BYTES..];
        left = left - 1;
    }
}

// ---- an offer is granted

// The n-th branch, to the process in place p; `enters` if it has a block.
pub fn grant<'a>(s: &'a [u8], map: &'a [u32], w: &'a mut [u64], p: usize, n: usize, enters: bool)
    requires { Granting s.now map.now w.old p n enters }
    ensures { (v : Granting s.now map.now w.old p n enters)
        → w.new ≡ work_of (grant p v.offer v.run.is) }
{
    let at = file_map::number_at(map, map::CLAIM + n);
    take_all(s, at, w, p);
    if enters {
        let block = base_wide::wide(file_fields::u16_at(s, at - 2));
        row_process::into(w, p, 1, block);
        return;
    }
    row_process::past(w, p);
}

// ---- who is barred

// The number of the action where the process in place p stands.
pub fn action_at<'a>(map: &'a [u32], w: &'a [u64], p: usize) -> usize
    requires { Shown w.now (Lives p) × (length map.now ≡ Map.WORDS) }
    ensures { (v : Shown w.now (Lives p))
        → result ≡ get_or map.now v.given.innermost.block 0 + v.given.innermost.at }
{
    let block = row_process::block_at(w, p);
    let at = row_process::standing_at(w, p);
    file_map::number_at(map, block) + at
}

// Whether the i-th of the blocked bars action a.
fn bars_at<'a>(s: &'a [u8], map: &'a [u32], w: &'a [u64], a: usize, i: usize) -> bool
    requires { Facing s.now map.now w.now a (i + 1) }
    ensures { (v : Facing s.now map.now w.now a (i + 1))
        → result ≡ bars (asks v.run.model v.run.is (place_at v.run.is.blocked i)) (offers v.asked) }
{
    let place = row_lists::blocked_at(w, i);
    let by = action_at(map, w, place);
    file_bars::bars(s, map, by, a)
}

// Whether one of the first k of the blocked bars it.
fn barred<'a>(s: &'a [u8], map: &'a [u32], w: &'a [u64], a: usize, k: usize) -> bool
    requires { Facing s.now map.now w.now a k }
    ensures { (v : Facing s.now map.now w.now a k)
        → result ≡ barred v.run.model v.run.is (take k v.run.is.blocked) (offers v.asked) }
{
    let mut i = 0;
    while i < k {
        if bars_at(s, map, w, a, i) {
            return true;
        }
        i += 1;
    }
    false
}

// ---- which branch

// The first branch of action a that is met, if none of the first k of the blocked bars it; or why it waits.
pub fn choice<'a>(s: &'a [u8], map: &'a [u32], w: &'a [u64], a: usize, k: usize) -> Choice
    requires { Facing s.now map.now w.now a k }
    ensures { (v : Facing s.now map.now w.now a k)
        → result ≡ choice_in (choice v.run.model v.run.is (take k v.run.is.blocked) (offers v.asked)) }
{
    if barred(s, map, w, a, k) {
        return Choice::Waits(Reason::Barred);
    }
    row_claim::first_met(s, map, w, a)
}

// The same, and not why it waits. A walk asks it of all who are blocked, and most of them lack something: that is asked first.
pub fn branch<'a>(s: &'a [u8], map: &'a [u32], w: &'a [u64], a: usize, k: usize) -> Branch
    requires { Facing s.now map.now w.now a k }
    ensures { (v : Facing s.now map.now w.now a k)
        → result ≡ branch_in (choice v.run.model v.run.is (take k v.run.is.blocked) (offers v.asked)) }
{
    let first = row_claim::first_met(s, map, w, a);
    let Choice::Goes(n) = first else {
        return Branch::Stays;
    };
    if barred(s, map, w, a, k) {
        return Branch::Stays;
    }
    Branch::Goes(n)
}
