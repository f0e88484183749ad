// Claims of the model's bytes held against the work: the test of one, and the first branch that is met.
#![tactic(auto)]

ghost use Rattle.std.specs.Prelude.{◌≡◌, ◌+◌, ◌≤◌, ◌<◌, length, get_or};
ghost use Rattle.semantics.specs.Record.{relation_of, item_of};
ghost use Rattle.semantics.specs.Claim.{holds, item_met, test, first_met};
ghost use Rattle.base_numbers.specs.Row as Row;
ghost use Rattle.base_numbers.specs.Limit as Limit;
ghost use Rattle.base_i32.specs.Code.{value_of};
ghost use Rattle.row_claim.specs.Asking.{Meeting, Asking};
ghost use Rattle.row_claim.specs.Choices.{test_in, choice_in};
ghost use Rattle.row_claim.specs.Items.{row_of, MeetingItem};

use base_numbers::{item, row};

// The test of a claim: it is met, or lacks an item, the first one, from 1.
#[derive(Clone, Copy)]
pub enum Test {
    Met,
    Lacks(u32),
}

// Why a process waits: it is barred, or its first branch lacks an item, from 1.
#[derive(Clone, Copy)]
pub enum Reason {
    Barred,
    Lacks(u32),
}

// Which branch of an action is taken, from 0; or why none is.
#[derive(Clone, Copy)]
pub enum Choice {
    Waits(Reason),
    Goes(usize),
}

// The same where nobody asks why.
#[derive(Clone, Copy)]
pub enum Branch {
    Stays,
    Goes(usize),
}

// ---- one item

// Whether the relation of this number holds between two numbers, given by their codes.
fn holds(relation: u32, x: u64, y: u64) -> bool
    ensures { result ≡ holds (relation_of relation) (value_of x) (value_of y) }
{
    match relation {
        1 => x < y,
        2 => x <= y,
        4 => x != y,
        5 => y <= x,
        6 => y < x,
        _ => x == y,
    }
}

// Where the row begins that an item of this kind is looked up in: what is free, the bins, how many wait, the variables.
fn row_of(kind: u32) -> usize
    ensures { (result ≡ row_of kind) × (result ≤ Row.WAITS) }
{
    match kind {
        item::GET_R => row::FREE,
        item::GET_B => row::BINS,
        item::GET_S => row::WAITS,
        _ => row::GLOBALS,
    }
}

// What the work has at this number of the row.
fn there(w: &[u64], kind: u32, number: u32) -> u64
    requires { (length w.now ≡ Row.WORDS) × (number < Limit.THINGS) }
    ensures { result ≡ get_or w.now (row_of kind + number) 0 }
{
    let row = row_of(kind);
    w[row + number as usize]
}

fn item_met<'a>(i: &'a [u8], w: &'a [u64]) -> bool
    requires { MeetingItem i.now w.now × (8 ≤ length i.now) }
    ensures { (v : MeetingItem i.now w.now) →
        result ≡ item_met v.is (item_of i.now) }
{
    let kind = file_fields::u8_at(i, 0);
    let relation = file_fields::u8_at(i, 1);
    let number = file_fields::u16_at(i, 2);
    let amount = file_fields::u32_at(i, 4);
    let has = there(w, kind, number);
    if kind <= item::GET_S {
        return base_wide::wide(amount) <= has;
    }
    let bound = base_wide::wide(base_i32::from_twos(amount));
    holds(relation, has, bound)
}

// ---- the items of a claim

// The claim at byte `at`.
fn test_claim<'a>(s: &'a [u8], at: usize, w: &'a [u64]) -> Test
    requires { Meeting s.now at w.now }
    ensures { (v : Meeting s.now at w.now) → result ≡ test_in (test v.is v.claim) }
{
    let many = file_fields::u16_at(s, at);
    let mut left = many;
    let mut rest = &s[at + 2..];
    while 0 < left {
        if !item_met(&rest[..item::BYTES], w) {
            return Test::Lacks(many - left + 1);
        }
        rest = &rest[item::BYTES..];
        left = left - 1;
    }
    Test::Met
}

// ---- the branches of an action

// The first branch of action a whose claim is met, or what the first of all lacks.
pub fn first_met<'a>(s: &'a [u8], map: &'a [u32], w: &'a [u64], a: usize) -> Choice
    requires { Asking s.now map.now w.now a }
    ensures { (v : Asking s.now map.now w.now a)
        → result ≡ choice_in (first_met v.is 0 v.asks) }
{
    let from = file_map::branches_from(map, a);
    let many = file_map::branches_from(map, a + 1) - from;
    let mut lacking = 0;
    let mut k = 0;
    while k < many {
        let at = file_map::claim_at(map, from + k);
        let tested = test_claim(s, at, w);
        match tested {
            Test::Met => return Choice::Goes(k),
            Test::Lacks(n) => {
                if k == 0 {
                    lacking = n;
                }
            }
        }
        k += 1;
    }
    Choice::Waits(Reason::Lacks(lacking))
}
