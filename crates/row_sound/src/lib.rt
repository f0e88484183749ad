// Whether an open run is sound, tested on a row of numbers that shows its state: the clauses on blocks, and all of them.
#![tactic(auto)]

ghost use Rattle.std.specs.Prelude.{◌≡◌, ◌+◌, ◌≤◌, ◌<◌, length, get_or};
ghost use Rattle.semantics.specs.Numbers as No;
ghost use Rattle.semantics.specs.Bytes.{u16};
ghost use Rattle.semantics.specs.State.{process};
ghost use Rattle.semantics.specs.Claim.{stands_in};
ghost use Rattle.semantics.specs.Sound.{enters_at, asks_at, named_there, chained, all_chained, blocked_stand, sound_in};
ghost use Rattle.base_numbers.specs.Word as Word;
ghost use Rattle.base_numbers.specs.Limit as Limit;
ghost use Rattle.base_numbers.specs.Map as Map;
ghost use Rattle.base_numbers.specs.Byte as Byte;
ghost use Rattle.row_sound.specs.Chain.{is_body, action_in, Branching, branch_enters, Standing, Linking, linked};
ghost use Rattle.row_sound.specs.Chain.{Viewed, Chained, Asking};
ghost use Rattle.row_sound.specs.Handed.{Handed};

use base_numbers::{kind, limit, map, process, row, word};

// Kinds of actions, as numbers read from a file.
const DO: usize = kind::DO as usize;

const REQ: usize = kind::REQ as usize;

const TRY: usize = kind::TRY as usize;

const WHILE: usize = kind::WHILE as usize;

// ---- blocks

fn number_at(map: &[u32], i: usize) -> usize
    requires { i < length map.now }
    ensures { (result ≡ get_or map.now i 0) × (result < Byte.FOUR) }
{
    map[i] as usize
}

fn number_in(bytes: &[u8], at: usize) -> usize
    requires { at + 2 ≤ length bytes.now }
    ensures { (result ≡ u16 bytes.now at) × (result < Byte.TWO) }
{
    file_fields::u16_at(bytes, at) as usize
}

// Whether b is the body of a class.
fn is_body(map: &[u32], classes: usize, b: usize) -> bool
    requires { (length map.now ≡ Map.WORDS) × (classes ≤ Limit.CLASSES) }
    ensures { result ≡ is_body map.now classes b }
{
    let mut found = false;
    let mut i = 0;
    while i < classes {
        found = (b == number_at(map, map::BODY + i)) | found;
        i += 1;
    }
    found
}

// The number of the action at index `at` of block b; 1,024 where that is past its last.
fn action_in(map: &[u32], b: usize, at: usize) -> usize
    requires { (length map.now ≡ Map.WORDS) × ((b < Limit.BLOCKS) × (at < Word.ACTIONS)) }
    ensures { result ≡ action_in map.now b at }
{
    let a = number_at(map, b) + at;
    if a < number_at(map, b + 1) {
        a
    } else {
        limit::ACTIONS
    }
}

// Whether a branch of action a enters block b.
fn branch_enters<'a>(bytes: &'a [u8], map: &'a [u32], a: usize, b: usize) -> bool
    requires { Branching bytes.now map.now a }
    ensures { result ≡ branch_enters bytes.now map.now a b }
{
    let from = number_at(map, map::FROM + a);
    let many = number_at(map, map::FROM + (a + 1)) - from;
    let mut found = false;
    let mut k = 0;
    while k < many {
        let at = number_at(map, map::CLAIM + (from + k));
        found = (number_in(bytes, at - 2) == b) | found;
        k += 1;
    }
    found
}

// Whether one that stands at action a can be in block b with so many rounds left.
fn enters_at<'a>(bytes: &'a [u8], map: &'a [u32], a: usize, b: usize, rounds: usize) -> bool
    requires { Standing bytes.now map.now a }
    ensures { (v : Standing bytes.now map.now a) → result ≡ enters_at v.action b rounds }
{
    if a == limit::ACTIONS {
        return false;
    }
    let at = number_at(map, map::PLACE + a);
    let kind = number_in(bytes, at + 2);
    if kind == DO {
        return (number_in(bytes, at + 6) == b)
            & ((1 <= rounds) & (rounds <= number_in(bytes, at + 4)));
    }
    if (kind == TRY) | (kind == WHILE) {
        return branch_enters(bytes, map, a, b) & (rounds == 1);
    }
    false
}

// Whether one that stands at action a asks there.
fn asks_at<'a>(bytes: &'a [u8], map: &'a [u32], a: usize) -> bool
    requires { Standing bytes.now map.now a }
    ensures { (v : Standing bytes.now map.now a) → result ≡ asks_at v.action }
{
    if a == limit::ACTIONS {
        return false;
    }
    let at = number_at(map, map::PLACE + a);
    let kind = number_in(bytes, at + 2);
    (kind == REQ) | (kind == TRY)
}

// Whether the block of `word` is named where the one of `outer` stands, or is the body of a class where there is none.
fn named<'a>(
    bytes: &'a [u8],
    map: &'a [u32],
    classes: usize,
    k: usize,
    outer: u64,
    word: u64,
) -> bool
    requires { Linking bytes.now map.now classes k outer word }
    ensures { (v : Linking bytes.now map.now classes k outer word)
        → result ≡ named_there v.model v.frame v.around }
{
    let b = (word % word::BLOCKS) as usize;
    let rounds = (word / word::ROUND) as usize;
    if k == 0 {
        return is_body(map, classes, b) & (rounds == 1);
    }
    let a = action_in(
        map,
        (outer % word::BLOCKS) as usize,
        (outer / word::ACTION % word::ACTIONS) as usize,
    );
    enters_at(bytes, map, a, b, rounds)
}

// Whether it is, and is stood in at an action or just past its last.
fn link<'a>(
    bytes: &'a [u8],
    map: &'a [u32],
    classes: usize,
    k: usize,
    outer: u64,
    word: u64,
) -> bool
    requires { Linking bytes.now map.now classes k outer word }
    ensures { (v : Linking bytes.now map.now classes k outer word)
        → result ≡ linked v.model v.frame v.around }
{
    if !named(bytes, map, classes, k, outer, word) {
        return false;
    }
    let b = (word % word::BLOCKS) as usize;
    let at = (word / word::ACTION % word::ACTIONS) as usize;
    number_at(map, b) + at <= number_at(map, b + 1)
}

// Whether the blocks of the process in place p are chained, the outermost first.
fn chained<'a>(bytes: &'a [u8], map: &'a [u32], w: &'a [u64], classes: usize, p: usize) -> bool
    requires { Viewed bytes.now map.now w.now classes × (p < No.places) }
    ensures { (v : Viewed bytes.now map.now w.now classes)
        → result ≡ chained v.model (process v.is p).frames }
{
    let depth = row_work::word(w, p, process::DEPTH) as usize;
    let mut k = 0;
    while k < depth {
        if !link(
            bytes,
            map,
            classes,
            k,
            row_work::word(w, p, process::BEFORE_BLOCKS + k),
            row_work::word(w, p, process::BLOCKS + k),
        ) {
            return false;
        }
        k += 1;
    }
    true
}

fn all_chained<'a>(bytes: &'a [u8], map: &'a [u32], w: &'a [u64], classes: usize) -> bool
    requires { Viewed bytes.now map.now w.now classes }
    ensures { (v : Viewed bytes.now map.now w.now classes)
        → result ≡ all_chained v.model v.is }
{
    let mut ok = true;
    let mut p = 0;
    while p < limit::PLACES {
        ok = chained(bytes, map, w, classes, p) & ok;
        p += 1;
    }
    ok
}

// Whether the process in place p stands at a REQ or TRY.
fn asks<'a>(bytes: &'a [u8], map: &'a [u32], w: &'a [u64], classes: usize, p: usize) -> bool
    requires { Asking bytes.now map.now w.now classes p }
    ensures { (v : Asking bytes.now map.now w.now classes p)
        → result ≡ asks_at (stands_in v.viewed.model (process v.viewed.is p).frames) }
{
    let depth = row_work::word(w, p, process::DEPTH) as usize;
    if depth == 0 {
        return false;
    }
    let word = row_work::word(w, p, process::BEFORE_BLOCKS + depth);
    let a = action_in(
        map,
        (word % word::BLOCKS) as usize,
        (word / word::ACTION % word::ACTIONS) as usize,
    );
    asks_at(bytes, map, a)
}

fn blocked_stand<'a>(bytes: &'a [u8], map: &'a [u32], w: &'a [u64], classes: usize) -> bool
    requires { Chained bytes.now map.now w.now classes }
    ensures { (v : Chained bytes.now map.now w.now classes)
        → result ≡ blocked_stand v.viewed.model v.viewed.is }
{
    let n = w[row::BLOCKED] as usize;
    let mut ok = true;
    let mut k = 0;
    while k < n {
        ok = asks(
            bytes,
            map,
            w,
            classes,
            (w[row::QUEUE + k] % word::PLACES) as usize,
        ) & ok;
        k += 1;
    }
    ok
}

// ---- all of it

// Whether a row that shows a state shows a sound one: of the model of these bytes and this map, which declares so many things,
// with these totals of its resources.
pub fn sound_in<'a>(
    bytes: &'a [u8],
    map: &'a [u32],
    w: &'a [u64],
    totals: &'a [u64],
    resources: usize,
    bins: usize,
    syncs: usize,
    classes: usize,
) -> bool
    requires { Handed bytes.now map.now w.now totals.now resources bins syncs classes }
    ensures { (v : Handed bytes.now map.now w.now totals.now
        resources bins syncs classes) → result ≡ sound_in v.viewed.model v.viewed.is }
{
    if !all_chained(bytes, map, w, classes) {
        return false;
    }
    row_sound_lists::sound_beside(w, totals, resources, bins, syncs)
        & blocked_stand(bytes, map, w, classes)
}
