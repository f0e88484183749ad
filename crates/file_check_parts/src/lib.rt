// Checks 6, 7 and 8 on the parts of one size that a record's body has: items of a claim, shares of a START, nodes.
#![tactic(auto)]

ghost use Rattle.std.specs.Prelude.{◌≡◌, ◌*◌, ◌≤◌, ◌<◌, refl, List, ℕ, Bool, length, get_or};
ghost use Rattle.std.proofs.Common.{rules};
ghost use Rattle.semantics.specs.Words.{all, any};
ghost use Rattle.semantics.specs.Numbers as No;
ghost use Rattle.semantics.specs.Kinds as K;
ghost use Rattle.semantics.specs.Bytes.{u8, u32, parts};
ghost use Rattle.semantics.specs.Record.{Part as RecordPart, item, share, part_size, part_valid, same_part, repeats, node_valid};
ghost use Rattle.semantics.specs.Decode.{part_known, node_known};

use base_numbers::{group, item, limit, op, part};

// ---- one part: check 6

fn item_valid(i: &[u8]) -> bool
    requires { 8 ≤ length i.now }
    ensures { result ≡ part_valid item i.now }
{
    let kind = file_fields::u8_at(i, 0);
    let relation = file_fields::u8_at(i, 1);
    let amount = file_fields::u32_at(i, 4);
    (kind <= item::GET_S) & ((relation == 0) & ((1 <= amount) & (amount <= limit::AMOUNT)))
        | ((kind == item::CONDITION) & ((1 <= relation) & (relation <= item::LAST_RELATION)))
}

fn share_valid(h: &[u8]) -> bool
    requires { 6 ≤ length h.now }
    ensures { result ≡ part_valid share h.now }
{
    let amount = file_fields::u32_at(h, 2);
    (1 <= amount) & (amount <= limit::AMOUNT)
}

fn node_valid(d: &[u8]) -> bool
    requires { 6 ≤ length d.now }
    ensures { result ≡ node_valid d.now }
{
    let op = file_fields::u16_at(d, 0);
    let operand = file_fields::u32_at(d, 2);
    (op <= op::LOCAL) | (((op <= op::NEGATE) & (operand == 0)) | (op == op::DRAW))
}

// ---- one part: check 8, where `n` has how many there are of each group

fn item_known(n: [u32; group::MANY], i: &[u8]) -> bool
    requires { 8 ≤ length i.now }
    ensures { result ≡ part_known item n i.now }
{
    let group = (file_fields::u8_at(i, 0) + 1) as usize;
    let number = file_fields::u16_at(i, 2);
    if group < group::MANY {
        return number < n[group];
    }
    false
}

fn share_known(n: [u32; group::MANY], h: &[u8]) -> bool
    requires { 6 ≤ length h.now }
    ensures { result ≡ part_known share n h.now }
{
    let number = file_fields::u16_at(h, 0);
    number < n[group::RES]
}

fn node_known(n: [u32; group::MANY], d: &[u8]) -> bool
    requires { 6 ≤ length d.now }
    ensures { result ≡ node_known (get_or n K.VAR 0) (get_or n K.SAMPLER 0) d.now }
{
    let op = file_fields::u16_at(d, 0);
    let operand = file_fields::u32_at(d, 2);
    ((op != op::GLOBAL) | (operand < n[group::VAR]))
        & (((op != op::LOCAL) | (operand < limit::LOCAL))
            & ((op != op::DRAW) | (operand < n[group::SAMPLER])))
}

// ---- check 7

fn same_item(i: &[u8], j: &[u8]) -> bool
    requires { (8 ≤ length i.now) × (8 ≤ length j.now) }
    ensures { result ≡ same_part item i.now j.now }
{
    let kind = file_fields::u8_at(i, 0);
    let other = file_fields::u8_at(j, 0);
    let a = file_fields::u16_at(i, 2);
    let b = file_fields::u16_at(j, 2);
    (kind <= item::GET_S) & ((kind == other) & (a == b))
}

fn same_share(i: &[u8], j: &[u8]) -> bool
    requires { (6 ≤ length i.now) × (6 ≤ length j.now) }
    ensures { result ≡ same_part share i.now j.now }
{
    let a = file_fields::u16_at(i, 0);
    let b = file_fields::u16_at(j, 0);
    a == b
}

// ---- the kinds of parts

// A kind of part. What its tests are stands here, for generic code; the functions above are its tests, where each is proved.
pub trait Part {
    ghost SIZE: { ℕ };

    ghost is_valid: { List ℕ → Bool };

    ghost is_known: { List ℕ → List ℕ → Bool };

    // How many bytes it has.
    const SIZE: usize;

    // Check 6.
    fn valid(part: &[u8]) -> bool
        requires { SIZE ≤ length part.now }
        ensures { result ≡ is_valid part.now };

    // Check 8, where `n` has how many there are of each group.
    fn known(n: [u32; group::MANY], part: &[u8]) -> bool
        requires { SIZE ≤ length part.now }
        ensures { result ≡ is_known n part.now };

    ghost not_empty: { 0 < SIZE };
}

// A kind of part that stands in a list, where no two may name the same.
pub trait Listed: Part {
    ghost kind: { RecordPart };

    // Check 7.
    fn same(one: &[u8], other: &[u8]) -> bool
        requires { (Self.SIZE ≤ length one.now) × (Self.SIZE ≤ length other.now) }
        ensures { result ≡ same_part kind one.now other.now };

    ghost sized: { Self.SIZE ≡ part_size kind };

    ghost validated: { Self.is_valid ≡ part_valid kind };

    ghost named: { Self.is_known ≡ part_known kind };
}

// An item of a claim.
pub struct Item;

// A share of a START.
pub struct Share;

// A node of an expression.
pub struct Node;

impl Part for Item {
    ghost SIZE = { 8 };

    ghost is_valid = { part_valid item };

    ghost is_known = { part_known item };

    const SIZE: usize = item::BYTES;

    fn valid(part: &[u8]) -> bool {
        item_valid(part)
    }

    fn known(n: [u32; group::MANY], part: &[u8]) -> bool {
        item_known(n, part)
    }

    ghost not_empty = { Prim.search rules };
}

impl Listed for Item {
    ghost kind = { item };

    fn same(one: &[u8], other: &[u8]) -> bool {
        same_item(one, other)
    }

    ghost sized = { refl };

    ghost validated = { refl };

    ghost named = { refl };
}

impl Part for Share {
    ghost SIZE = { 6 };

    ghost is_valid = { part_valid share };

    ghost is_known = { part_known share };

    const SIZE: usize = part::SHARE_BYTES;

    fn valid(part: &[u8]) -> bool {
        share_valid(part)
    }

    fn known(n: [u32; group::MANY], part: &[u8]) -> bool {
        share_known(n, part)
    }

    ghost not_empty = { Prim.search rules };
}

impl Listed for Share {
    ghost kind = { share };

    fn same(one: &[u8], other: &[u8]) -> bool {
        same_share(one, other)
    }

    ghost sized = { refl };

    ghost validated = { refl };

    ghost named = { refl };
}

impl Part for Node {
    ghost SIZE = { 6 };

    ghost is_valid = { node_valid };

    ghost is_known = { λ n. node_known (get_or n K.VAR 0) (get_or n K.SAMPLER 0) };

    const SIZE: usize = op::NODE_BYTES;

    fn valid(part: &[u8]) -> bool {
        node_valid(part)
    }

    fn known(n: [u32; group::MANY], part: &[u8]) -> bool {
        node_known(n, part)
    }

    ghost not_empty = { Prim.search rules };
}

// ---- all parts

// Whether the first `count` parts of bs pass check 6. All are looked at, and no turn ends it: so the loop takes several at once.
pub fn all_valid<P: Part>(count: u32, bs: &[u8]) -> bool
    requires { P.SIZE * count ≤ length bs.now }
    ensures { result ≡ all P.is_valid (parts P.SIZE count bs.now) }
{
    let mut ok = true;
    for part in bs.chunks_exact(P::SIZE).take(count as usize) {
        ok &= P::valid(part);
    }
    ok
}

// Whether the first `count` parts of bs pass check 8. All are looked at, as in check 6.
pub fn all_known<P: Part>(n: [u32; group::MANY], count: u32, bs: &[u8]) -> bool
    requires { P.SIZE * count ≤ length bs.now }
    ensures { result ≡ all (P.is_known n) (parts P.SIZE count bs.now) }
{
    let mut ok = true;
    for part in bs.chunks_exact(P::SIZE).take(count as usize) {
        ok &= P::known(n, part);
    }
    ok
}

// Whether one of the first `count` parts of bs names what the part x does.
fn named_again<P: Listed>(x: &[u8], count: u32, bs: &[u8]) -> bool
    requires { (P.SIZE ≤ length x.now) × (P.SIZE * count ≤ length bs.now) }
    ensures { result ≡ any (same_part P.kind x.now) (parts P.SIZE count bs.now) }
{
    for part in bs.chunks_exact(P::SIZE).take(count as usize) {
        if P::same(x, part) {
            return true;
        }
    }
    false
}

// Whether two of the first `count` parts of bs name the same.
pub fn parts_repeat<P: Listed>(count: u32, bs: &[u8]) -> bool
    requires { P.SIZE * count ≤ length bs.now }
    ensures { result ≡ repeats (same_part P.kind) (parts P.SIZE count bs.now) }
{
    let mut rest = bs;
    for left in (0..count).rev() {
        let (first, behind) = rest.split_at(P::SIZE);
        if named_again::<P>(first, left, behind) {
            return true;
        }
        rest = behind;
    }
    false
}
