// Checks 5 to 9 on what follows a record's fields: an expression, a claim, the shares of a START, the branches of a TRY.
#![tactic(auto)]

ghost use Rattle.std.specs.Prelude.{◌≡◌, true, not, ◌&&◌, ◌+◌, ◌*◌, ◌≤◌, ◌<◌, List, ℕ, Bool, leb, ltb, length, get_or, drop};
ghost use Rattle.std.specs.Borrow.{Bor};
ghost use Rattle.semantics.specs.Words.{all};
ghost use Rattle.semantics.specs.Numbers as No;
ghost use Rattle.semantics.specs.Bytes.{u16, parts};
ghost use Rattle.semantics.specs.Record.{part_size, parts_of, list_sized, list_valid, list_twice, pile, nodes, item, expression, branches};
ghost use Rattle.semantics.specs.Record.{branch_size, branches_fit, branches_from, sized, valid, twice};
ghost use Rattle.semantics.specs.Kinds as K;
ghost use Rattle.semantics.specs.Decode.{node_known, part_known, tail_known};
ghost use Rattle.base_numbers.specs.Byte as Byte;
ghost use Rattle.file_check_tails.specs.Kinds.{kind_of};
ghost use Rattle.file_check_tails.specs.Tails.{tail_of, arity, height_of, grown_by};
ghost use Rattle.file_check_tails.specs.Tests.{Decides};

use base_numbers::{branch, group, item, limit, op, tail};
use file_check_parts::{Item, Listed, Node, Share};

// How many trees each op takes for its operands.
const ARITY: [u32; op::MANY] = [0, 0, 0, 2, 2, 2, 2, 2, 0, 1, 0];

// ---- expressions

// How many trees an op takes for its operands; an unknown op is a leaf.
pub fn operands(op: u32) -> u32
    ensures { (result ≡ arity op) × (result ≤ 2) }
{
    let k = op as usize;
    if k < op::MANY {
        return ARITY[k];
    }
    0
}

fn grown(a: u32, h: u32) -> u32
    requires { (a ≤ 2) × (h ≤ No.longest_file) }
    ensures { (result ≡ grown_by a h) × (result ≤ h + 1) }
{
    if a + 1 <= h { h + 1 - a } else { 0 }
}

// One more than the height of the pile that the nodes make, read from the last to the first; 0 where an operand is missing.
fn height(n: usize, bs: &[u8]) -> u32
    requires { (n ≤ No.most_nodes) × (6 * n ≤ length bs.now) }
    ensures { result ≡ height_of (pile (parts 6 n bs.now)) }
{
    let mut h = 1;
    for k in (0..n).rev() {
        let op = file_fields::u16_at(bs, op::NODE_BYTES * k);
        h = grown(operands(op), h);
    }
    h
}

fn expression_sized(bs: &[u8]) -> bool
    ensures { result ≡ sized expression bs.now }
{
    let n = bs.len() / op::NODE_BYTES;
    if bs.len() % op::NODE_BYTES != 0 {
        return false;
    }
    if n < 1 {
        return false;
    }
    if limit::NODES < n {
        return false;
    }
    height(n, bs) == 2
}

fn nodes_valid(bs: &[u8]) -> bool
    requires { sized expression bs.now ≡ true }
    ensures { result ≡ valid expression bs.now }
{
    file_check_parts::all_valid::<Node>((bs.len() / op::NODE_BYTES) as u32, bs)
}

fn nodes_known(n: [u32; group::MANY], bs: &[u8]) -> bool
    requires { sized expression bs.now ≡ true }
    ensures { result ≡ all (node_known (get_or n K.VAR 0) (get_or n K.SAMPLER 0)) (nodes bs.now) }
{
    file_check_parts::all_known::<Node>(n, (bs.len() / op::NODE_BYTES) as u32, bs)
}

// ---- a claim, or the shares of a START

fn list_sized<P: Listed>(bs: &[u8]) -> bool
    ensures { result ≡ list_sized P.kind bs.now }
{
    if bs.len() < 2 {
        return false;
    }
    let n = file_fields::u16_at(bs, 0) as usize;
    bs.len() == 2 + P::SIZE * n
}

#[tactic(auto, unfolding(semantics::specs::Record::list_valid))]
fn list_valid<P: Listed>(bs: &[u8]) -> bool
    requires { (2 ≤ length bs.now) × (2 + part_size P.kind * u16 bs.now 0 ≤ length bs.now) }
    ensures { result ≡ list_valid P.kind bs.now }
{
    let n = file_fields::u16_at(bs, 0);
    (n <= limit::LISTED) & file_check_parts::all_valid::<P>(n, &bs[2..])
}

#[tactic(auto, unfolding(semantics::specs::Record::list_twice))]
fn list_twice<P: Listed>(bs: &[u8]) -> bool
    requires { (2 ≤ length bs.now) × (2 + part_size P.kind * u16 bs.now 0 ≤ length bs.now) }
    ensures { result ≡ list_twice P.kind bs.now }
{
    let n = file_fields::u16_at(bs, 0);
    file_check_parts::parts_repeat::<P>(n, &bs[2..])
}

fn list_known<P: Listed>(n: [u32; group::MANY], bs: &[u8]) -> bool
    requires { (2 ≤ length bs.now) × (2 + part_size P.kind * u16 bs.now 0 ≤ length bs.now) }
    ensures { result ≡ all (part_known P.kind n) (parts_of P.kind bs.now) }
{
    let count = file_fields::u16_at(bs, 0);
    file_check_parts::all_known::<P>(n, count, &bs[2..])
}

// ---- the branches of a TRY

fn branch_size(bs: &[u8]) -> usize
    requires { 4 ≤ length bs.now }
    ensures { (result ≡ branch_size bs.now) × ((4 ≤ result) × (result < 4 + 8 * Byte.TWO)) }
{
    branch::HEAD + item::BYTES * (file_fields::u16_at(bs, 2) as usize)
}

fn branches_fit(count: u32, bs: &[u8]) -> bool
    ensures { result ≡ branches_fit count bs.now }
{
    let mut rest = bs;
    for _ in 0..count {
        if rest.len() < branch::HEAD {
            return false;
        }
        let Some(behind) = rest.get(branch_size(rest)..) else {
            return false;
        };
        rest = behind;
    }
    rest.is_empty()
}

// What a branch is that stands in a slice of its own.
pub fn branch_valid(b: &[u8]) -> bool
    requires { (4 ≤ length b.now) × (branch_size b.now ≤ length b.now) }
    ensures { result ≡ list_valid item (drop 2 b.now) }
{
    list_valid::<Item>(&b[2..])
}

fn branch_once(b: &[u8]) -> bool
    requires { (4 ≤ length b.now) × (branch_size b.now ≤ length b.now) }
    ensures { result ≡ not (list_twice item (drop 2 b.now)) }
{
    !list_twice::<Item>(&b[2..])
}

fn branch_known(n: [u32; group::MANY], b: &[u8]) -> bool
    requires { (4 ≤ length b.now) × (branch_size b.now ≤ length b.now) }
    ensures { result ≡ (ltb (u16 b.now 0) (get_or n K.BLOCK 0) && all (part_known item n) (parts_of item (drop 2 b.now))) }
{
    let block = file_fields::u16_at(b, 0);
    (block < n[group::BLOCK]) & list_known::<Item>(n, &b[2..])
}

fn branches_sized(bs: &[u8]) -> bool
    ensures { result ≡ sized branches bs.now }
{
    if bs.len() < 2 {
        return false;
    }
    branches_fit(file_fields::u16_at(bs, 0), &bs[2..])
}

// Whether all branches of a TRY's tail, each in a slice of its own, pass a test.
pub fn all_branches<F: Fn(&[u8]) -> bool>(bs: &[u8], passes: F) -> bool
    requires fit { sized branches bs.now ≡ true }
    requires asked { (b : Bor (List ℕ)) → 4 ≤ length b.now → branch_size b.now ≤ length b.now → F.pre passes b }
    requires decided { Decides (F.post passes) }
    ensures { (d : Decides (F.post passes)) → result ≡ all d.is (branches_from (u16 bs.now 0) (drop 2 bs.now)) }
{
    let mut rest = &bs[2..];
    for _ in 0..file_fields::u16_at(bs, 0) {
        let (branch, behind) = rest.split_at(branch_size(rest));
        if !passes(branch) {
            return false;
        }
        rest = behind;
    }
    true
}

fn branches_valid(bs: &[u8]) -> bool
    requires { sized branches bs.now ≡ true }
    ensures { result ≡ valid branches bs.now }
{
    let count = file_fields::u16_at(bs, 0);
    ((1 <= count) & (count <= limit::OFFERED)) & all_branches(bs, branch_valid)
}

fn branches_twice(bs: &[u8]) -> bool
    requires { sized branches bs.now ≡ true }
    ensures { result ≡ twice branches bs.now }
{
    !all_branches(bs, branch_once)
}

fn branches_known(n: [u32; group::MANY], bs: &[u8]) -> bool
    requires { sized branches bs.now ≡ true }
    ensures { result ≡ all (λ b. ltb (u16 b 0) (get_or n K.BLOCK 0) && all (part_known item n) (parts_of item (drop 2 b)))
        (branches_from (u16 bs.now 0) (drop 2 bs.now)) }
{
    all_branches(bs, |b| branch_known(n, b))
}

// Check 9: whether no branch names a block below `own`.
pub fn branches_later(own: u32, bs: &[u8]) -> bool
    requires { sized branches bs.now ≡ true }
    ensures { result ≡ all (λ b. leb own (u16 b 0)) (branches_from (u16 bs.now 0) (drop 2 bs.now)) }
{
    all_branches(bs, |b| own <= file_fields::u16_at(b, 0))
}

// ---- any tail

#[derive(Clone, Copy, PartialEq, Eq)]
pub enum Tail {
    Nothing,
    Expression,
    Branches,
    Claim,
    Shares,
}

impl Tail {
    // The tail that the table of kinds has by a number of base_numbers::tail.
    #[tactic(auto, using(crate::proofs::Numbered::no_tail), unfolding(crate::specs::Tails::tail_of))]
    pub fn of(number: u32) -> Tail
        ensures { kind_of result ≡ tail_of number }
    {
        match number {
            tail::EXPRESSION => Tail::Expression,
            tail::BRANCHES => Tail::Branches,
            tail::CLAIM => Tail::Claim,
            tail::SHARES => Tail::Shares,
            _ => Tail::Nothing,
        }
    }
}

// Check 5.
pub fn tail_sized(tail: Tail, bs: &[u8]) -> bool
    ensures { result ≡ sized (kind_of tail) bs.now }
{
    match tail {
        Tail::Nothing => bs.is_empty(),
        Tail::Expression => expression_sized(bs),
        Tail::Branches => branches_sized(bs),
        Tail::Claim => list_sized::<Item>(bs),
        Tail::Shares => list_sized::<Share>(bs),
    }
}

// Check 6.
pub fn tail_valid(tail: Tail, bs: &[u8]) -> bool
    requires { sized (kind_of tail) bs.now ≡ true }
    ensures { result ≡ valid (kind_of tail) bs.now }
{
    match tail {
        Tail::Nothing => true,
        Tail::Expression => nodes_valid(bs),
        Tail::Branches => branches_valid(bs),
        Tail::Claim => list_valid::<Item>(bs),
        Tail::Shares => list_valid::<Share>(bs),
    }
}

// Check 7.
pub fn tail_twice(tail: Tail, bs: &[u8]) -> bool
    requires { sized (kind_of tail) bs.now ≡ true }
    ensures { result ≡ twice (kind_of tail) bs.now }
{
    match tail {
        Tail::Nothing => false,
        Tail::Expression => false,
        Tail::Branches => branches_twice(bs),
        Tail::Claim => list_twice::<Item>(bs),
        Tail::Shares => list_twice::<Share>(bs),
    }
}

// Check 8.
#[tactic(auto, unfolding(semantics::specs::Decode::tail_known))]
pub fn tail_known(tail: Tail, n: [u32; group::MANY], bs: &[u8]) -> bool
    requires { sized (kind_of tail) bs.now ≡ true }
    ensures { result ≡ tail_known n (kind_of tail) bs.now }
{
    match tail {
        Tail::Nothing => true,
        Tail::Expression => nodes_known(n, bs),
        Tail::Branches => branches_known(n, bs),
        Tail::Claim => list_known::<Item>(n, bs),
        Tail::Shares => list_known::<Share>(n, bs),
    }
}
