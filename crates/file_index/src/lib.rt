// What the rest of the engine reads an accepted model file by: where its blocks, classes and actions stand, which blocks each
// action names, whether it may loop, the branches of each REQ, TRY and WHILE, how many things it declares, and what its samplers
// draw from.
#![tactic(auto)]

ghost use Rattle.std.specs.Prelude.{◌≡◌, [], ◌∷◌, ◌+◌, ◌≤◌, ◌<◌, leb, eqb, length, get_or, if◌then◌else◌};
ghost use Rattle.semantics.specs.Numbers as No;
ghost use Rattle.semantics.specs.Kinds as K;
ghost use Rattle.semantics.specs.Bytes.{u16, records_from};
ghost use Rattle.semantics.specs.Decode.{opened, gather};
ghost use Rattle.base_numbers.specs.Byte as Byte;
ghost use Rattle.file_index.specs.Index.{Readable, Judged, given, Wrote, index_of, own_in, times_in, branch_blocks, Branched};
ghost use Rattle.file_index.specs.Index.{goes_in, graph_of, loops_at, loops_in, counts_in, lowest_in, values_for, samplers_of};
ghost use Rattle.file_index.specs.Branches.{bit_of, named_in, Claimed, offered, offered_try, offered_in, rows, Roomy, Noted};
ghost use Rattle.file_index.specs.Branches.{Tried, branches_of};

use base_numbers::{item, kind, limit};

// `first[b]` actions stand before block b, and `first[blocks]` is how many there are; the record of action a stands at byte
// `place[a]`; the body block of class c is `body[c]`. What is not used is 0.
// Arrays whole, with 0 behind what is used: the contract of file_map::map_of lays them so, by its definition rows_of.
#[derive(Clone, Copy)]
pub struct Index {
    pub blocks: usize,
    pub actions: usize,
    pub classes: usize,
    pub first: [u16; limit::BLOCKS + 1],
    pub place: [u16; limit::ACTIONS],
    pub body: [u16; limit::CLASSES],
}

// Of action a: its own weight; how many times it weighs what it names; the blocks that it names, which are
// `goes[from[a] .. from[a + 1]]`. What is not used is 0.
#[derive(Clone, Copy)]
pub struct Graph {
    pub own: [u16; limit::ACTIONS],
    pub times: [u16; limit::ACTIONS],
    pub from: [u16; limit::ACTIONS + 1],
    pub goes: [u16; limit::BRANCHES],
}

// `from[a]` branches stand before action a, and `from[actions]` is how many there are. The claim of branch n stands at byte
// `claim[n]`; bit i of `resources[n]`, of `bins[n]` and of `syncs[n]` is set where it names resource, bin or sync i. What is
// not used is 0.
// Arrays whole, with 0 behind what is used: the contract of file_map::map_of lays them so, by its definition rows_of.
#[derive(Clone, Copy)]
pub struct Branches {
    pub from: [u16; limit::ACTIONS + 1],
    pub claim: [u16; limit::BRANCHES],
    pub resources: [u32; limit::BRANCHES],
    pub bins: [u32; limit::BRANCHES],
    pub syncs: [u32; limit::BRANCHES],
}

// How many resources, bins, syncs, variables and samplers a model has.
#[derive(Clone, Copy)]
pub struct Counts {
    pub resources: usize,
    pub bins: usize,
    pub syncs: usize,
    pub variables: usize,
    pub samplers: usize,
}

// Of each sampler the code of its lowest value, and how many values it has. What is not used is 0.
// Arrays whole, with 0 behind what is used: the contract of file_map::map_of lays them so, by its definition rows_of.
#[derive(Clone, Copy)]
pub struct Samplers {
    pub lowest: [u32; limit::SAMPLERS],
    pub values: [u32; limit::SAMPLERS],
}

// How many kinds of actions there are, and the bits of a row of names.
const ACTS: usize = 15;

const BITS: u32 = 32;

// The own weights of the kinds of actions, from HOLD on.
const OWN: [u16; ACTS] = [1, 1, 1, 1, 1, 2, 2, 1, 1, 1, 1, 1, 1, 1, 1];

// ---- numbers of a record

fn pair_at(s: &[u8], at: usize) -> u16
    requires { at + 2 ≤ length s.now }
    ensures { result ≡ u16 s.now at }
{
    file_fields::u16_at(s, at) as u16
}

// The body block of a class; 0 of a number that no class has.
fn body_of(body: [u16; limit::CLASSES], class: u16) -> u16
    ensures { result ≡ get_or body class 0 }
{
    body.get(class as usize).copied().unwrap_or(0)
}

// v written at n of `out`, if `on`; and where the next is written.
fn noted<T: Copy>(on: bool, v: T, n: usize, out: &mut [T]) -> usize
    requires { n + length (given on v) ≤ length out.old }
    ensures { Wrote n (given on v) out.old result out.new }
{
    if on {
        out[n] = v;
        return n + 1;
    }
    n
}

// ---- the index

// The body block that a CLASS names; 0 of any other record.
fn class_body(kind: u32, bs: &[u8]) -> u16
    requires { kind ≡ 5 → 2 ≤ length bs.now }
    ensures { result ≡ (if eqb kind 5 then u16 bs.now 0 else 0) }
{
    if kind == kind::CLASS {
        pair_at(bs, 0)
    } else {
        0
    }
}

// The index of a file that the first pass accepts.
pub fn index_of(s: &[u8]) -> Index
    requires { Readable s.now }
    ensures { result ≡ index_of (records_from 0 s.now) }
{
    let mut first = [0u16; limit::BLOCKS + 1];
    let mut place = [0u16; limit::ACTIONS];
    let mut body = [0u16; limit::CLASSES];
    let mut blocks = 0;
    let mut actions = 0;
    let mut classes = 0;
    let mut at = file_reader::first(s);
    while at < s.len() {
        let x = file_reader::read(s, at);
        let kind = x.kind;
        let end = file_reader::next(s, at);
        let block = class_body(kind, &s[at + 4..end]);
        blocks = noted(kind == kind::BLOCK, actions as u16, blocks, &mut first);
        classes = noted(kind == kind::CLASS, block, classes, &mut body);
        actions = noted(kind::HOLD <= kind, at as u16, actions, &mut place);
        at = end;
    }
    first[blocks] = actions as u16;
    Index {
        blocks,
        actions,
        classes,
        first,
        place,
        body,
    }
}

// ---- the graph

// The own weight of an action's kind; 0 of any other.
fn own_weight(kind: u32) -> u16
    ensures { result ≡ (if leb K.HOLD kind then own_in kind else 0) }
{
    if kind::HOLD <= kind {
        let k = (kind - kind::HOLD) as usize;
        if k < ACTS {
            return OWN[k];
        }
    }
    0
}

// How many times an action weighs what it names.
fn times_of(kind: u32, bs: &[u8]) -> u16
    requires { kind ≡ K.DO → 4 ≤ length bs.now }
    ensures { result ≡ times_in kind bs.now }
{
    match kind {
        kind::DO => pair_at(bs, 0),
        kind::TRY => 1,
        kind::START => 1,
        _ => 0,
    }
}

// The blocks of a TRY's branches written at n of `out`; and where the next is written.
fn branches_named(bs: &[u8], n: usize, out: &mut [u16]) -> usize
    requires { Branched bs.now n out.old }
    ensures { Wrote n (branch_blocks bs.now) out.old result out.new }
{
    let mut rest = &bs[2..];
    let mut at = n;
    for _ in 0..file_fields::u16_at(bs, 0) {
        let size = 4 + 8 * (file_fields::u16_at(rest, 2) as usize);
        at = noted(true, pair_at(rest, 0), at, out);
        rest = &rest[size..];
    }
    at
}

// The blocks that an action names, written at n of `out`; and where the next is written.
fn named(
    start: bool,
    body: [u16; limit::CLASSES],
    kind: u32,
    bs: &[u8],
    n: usize,
    out: &mut [u16],
) -> usize
    requires judged { Judged kind bs.now }
    requires bs_in_bounds { n + length (goes_in start body kind bs.now) ≤ length out.old }
    ensures { Wrote n (goes_in start body kind bs.now) out.old result out.new }
{
    match kind {
        kind::DO => noted(true, pair_at(bs, 2), n, out),
        kind::WHILE => noted(true, pair_at(bs, 0), n, out),
        kind::TRY => branches_named(bs, n, out),
        kind::START => noted(start, body_of(body, pair_at(bs, 0)), n, out),
        _ => n,
    }
}

// The graph of a file that the first pass accepts, where `body` has the classes' body blocks; a START names one if `start`.
pub fn graph_of(s: &[u8], start: bool, body: [u16; limit::CLASSES]) -> Graph
    requires { Readable s.now }
    ensures { result ≡ graph_of start body (records_from 0 s.now) }
{
    let mut own = [0u16; limit::ACTIONS];
    let mut times = [0u16; limit::ACTIONS];
    let mut from = [0u16; limit::ACTIONS + 1];
    let mut goes = [0u16; limit::BRANCHES];
    let mut actions = 0;
    let mut ends = 0;
    let mut at = file_reader::first(s);
    while at < s.len() {
        let x = file_reader::read(s, at);
        let kind = x.kind;
        let end = file_reader::next(s, at);
        let bs = &s[at + 4..end];
        noted(kind::HOLD <= kind, own_weight(kind), actions, &mut own);
        noted(kind::HOLD <= kind, times_of(kind, bs), actions, &mut times);
        actions = noted(kind::HOLD <= kind, ends as u16, actions, &mut from);
        ends = named(start, body, kind, bs, ends, &mut goes);
        at = end;
    }
    from[actions] = ends as u16;
    Graph {
        own,
        times,
        from,
        goes,
    }
}

// ---- the branches

// The bit of the thing that an item names, if it is of kind j: 0 a resource, 1 a bin, 2 a sync.
fn bit(j: u32, s: &[u8]) -> u32
    requires { 8 ≤ length s.now }
    ensures { result ≡ bit_of j s.now }
{
    let number = file_fields::u16_at(s, 2);
    if (file_fields::u8_at(s, 0) == j) & (number < BITS) {
        return 1u32 << number;
    }
    0
}

// The bits of the things of kind j that a claim names.
fn names(j: u32, s: &[u8]) -> u32
    requires { Claimed s.now }
    ensures { result ≡ named_in j s.now }
{
    let items = file_fields::u16_at(s, 0) as usize;
    let mut found = 0;
    for item in s[2..].chunks_exact(item::BYTES).take(items) {
        found |= bit(j, item);
    }
    found
}

// A branch whose claim is s, at byte `at`, written at n of the rows; and where the next is written.
fn branch_noted(
    at: u16,
    s: &[u8],
    n: usize,
    claim: &mut [u16],
    resources: &mut [u32],
    bins: &mut [u32],
    syncs: &mut [u32],
) -> usize
    requires claimed { Claimed s.now }
    requires roomy { Roomy (n + 1) (rows claim.old resources.old bins.old syncs.old) }
    ensures { Noted n (offered at s.now ∷ [])
        (rows claim.old resources.old bins.old syncs.old) result
        (rows claim.new resources.new bins.new syncs.new) }
{
    claim[n] = at;
    resources[n] = names(0, s);
    bins[n] = names(1, s);
    syncs[n] = names(2, s);
    n + 1
}

// The branches of a TRY, whose body bs begins at byte `at`, written at n of the rows; and where the next is written.
fn try_noted(
    at: usize,
    bs: &[u8],
    n: usize,
    claim: &mut [u16],
    resources: &mut [u32],
    bins: &mut [u32],
    syncs: &mut [u32],
) -> usize
    requires { Tried at bs.now n (rows claim.old resources.old bins.old syncs.old) }
    ensures { Noted n (offered_try at bs.now)
        (rows claim.old resources.old bins.old syncs.old) result
        (rows claim.new resources.new bins.new syncs.new) }
{
    let mut rest = &bs[2..];
    let mut here = at + 2;
    let mut next = n;
    for _ in 0..file_fields::u16_at(bs, 0) {
        let size = 4 + 8 * (file_fields::u16_at(rest, 2) as usize);
        let place = (here + 2) as u16;
        next = branch_noted(place, &rest[2..size], next, claim, resources, bins, syncs);
        here = here + size;
        rest = &rest[size..];
    }
    next
}

// The branches of a record, whose body bs begins at byte `at`, written at n of the rows; and where the next is written.
fn branches_noted(
    kind: u32,
    at: usize,
    bs: &[u8],
    n: usize,
    claim: &mut [u16],
    resources: &mut [u32],
    bins: &mut [u32],
    syncs: &mut [u32],
) -> usize
    requires judged { Judged kind bs.now }
    requires bs_bound { at + length bs.now ≤ No.longest_file }
    requires roomy { Roomy (n + length (offered_in at kind bs.now)) (rows claim.old resources.old bins.old syncs.old) }
    ensures { Noted n (offered_in at kind bs.now)
        (rows claim.old resources.old bins.old syncs.old) result
        (rows claim.new resources.new bins.new syncs.new) }
{
    match kind {
        kind::REQ => branch_noted(at as u16, bs, n, claim, resources, bins, syncs),
        kind::TRY => try_noted(at, bs, n, claim, resources, bins, syncs),
        kind::WHILE => branch_noted((at + 2) as u16, &bs[2..], n, claim, resources, bins, syncs),
        _ => n,
    }
}

// The branches of a file that the first pass accepts.
pub fn branches_of(s: &[u8]) -> Branches
    requires { Readable s.now }
    ensures { result ≡ branches_of (records_from 0 s.now) }
{
    let mut from = [0u16; limit::ACTIONS + 1];
    let mut claim = [0u16; limit::BRANCHES];
    let mut resources = [0u32; limit::BRANCHES];
    let mut bins = [0u32; limit::BRANCHES];
    let mut syncs = [0u32; limit::BRANCHES];
    let mut actions = 0;
    let mut ends = 0;
    let mut at = file_reader::first(s);
    while at < s.len() {
        let x = file_reader::read(s, at);
        let kind = x.kind;
        let end = file_reader::next(s, at);
        let start = at + 4;
        let bs = &s[start..end];
        actions = noted(kind::HOLD <= kind, ends as u16, actions, &mut from);
        ends = branches_noted(
            kind,
            start,
            bs,
            ends,
            &mut claim,
            &mut resources,
            &mut bins,
            &mut syncs,
        );
        at = end;
    }
    from[actions] = ends as u16;
    Branches {
        from,
        claim,
        resources,
        bins,
        syncs,
    }
}

// ---- loops

// Whether an action may loop, where `own` BLOCKs stand before it.
fn may_loop(body: [u16; limit::CLASSES], own: u32, kind: u32, bs: &[u8]) -> bool
    requires { kind ≡ K.START → 2 ≤ length bs.now }
    ensures { result ≡ loops_at body own kind bs.now }
{
    match kind {
        kind::WHILE => true,
        kind::START => (body_of(body, pair_at(bs, 0)) as u32) < own,
        _ => false,
    }
}

// How many BLOCKs stand before the next record.
fn opened(own: u32, kind: u32) -> u32
    requires { own < Byte.TWO }
    ensures { result ≡ opened own kind }
{
    if kind == kind::BLOCK { own + 1 } else { own }
}

// Whether there is a WHILE, or a START whose class's body block isn't greater than the START's own block.
pub fn loops(s: &[u8], body: [u16; limit::CLASSES]) -> bool
    requires { Readable s.now }
    ensures { result ≡ loops_in body (records_from 0 s.now) }
{
    let mut found = false;
    let mut own = 0;
    let mut at = file_reader::first(s);
    while at < s.len() {
        let x = file_reader::read(s, at);
        let kind = x.kind;
        let end = file_reader::next(s, at);
        found = found | may_loop(body, own, kind, &s[at + 4..end]);
        own = opened(own, kind);
        at = end;
    }
    found
}

// ---- the counts

// One more than n, if `on`.
fn tally(n: usize, on: bool) -> usize
    requires { n ≤ No.longest_file }
    ensures { result ≡ n + (if on then 1 else 0) }
{
    if on { n + 1 } else { n }
}

// How many of each a file declares that the first pass accepts.
pub fn counts_of(s: &[u8]) -> Counts
    requires { Readable s.now }
    ensures { result ≡ counts_in (gather (records_from 0 s.now)).model }
{
    let mut resources = 0;
    let mut bins = 0;
    let mut syncs = 0;
    let mut variables = 0;
    let mut samplers = 0;
    let mut at = file_reader::first(s);
    while at < s.len() {
        let x = file_reader::read(s, at);
        let kind = x.kind;
        resources = tally(resources, kind == kind::RES);
        bins = tally(bins, kind == kind::BIN);
        syncs = tally(syncs, kind == kind::SYNC);
        variables = tally(variables, kind == kind::VAR);
        samplers = tally(samplers, kind == kind::SAMPLER);
        at = file_reader::next(s, at);
    }
    Counts {
        resources,
        bins,
        syncs,
        variables,
        samplers,
    }
}

// ---- the samplers

// The code of a SAMPLER's lowest value; 0 of any other record.
fn lowest_of(kind: u32, bs: &[u8]) -> u32
    requires { Judged kind bs.now }
    ensures { result ≡ lowest_in kind bs.now }
{
    if kind == kind::SAMPLER {
        return base_i32::from_twos(file_fields::u32_at(bs, 0));
    }
    0
}

// How many values a SAMPLER has; 0 of any other record.
fn values_of(kind: u32, bs: &[u8]) -> u32
    requires { Judged kind bs.now }
    ensures { result ≡ values_for kind bs.now }
{
    if kind == kind::SAMPLER {
        let lowest = base_i32::from_twos(file_fields::u32_at(bs, 0));
        let highest = base_i32::from_twos(file_fields::u32_at(bs, 4));
        return highest - lowest + 1;
    }
    0
}

// The samplers of a file that the first pass accepts.
pub fn samplers_of(s: &[u8]) -> Samplers
    requires { Readable s.now }
    ensures { result ≡ samplers_of (records_from 0 s.now) }
{
    let mut lowest = [0u32; limit::SAMPLERS];
    let mut values = [0u32; limit::SAMPLERS];
    let mut samplers = 0;
    let mut at = file_reader::first(s);
    while at < s.len() {
        let x = file_reader::read(s, at);
        let kind = x.kind;
        let end = file_reader::next(s, at);
        let bs = &s[at + 4..end];
        noted(
            kind == kind::SAMPLER,
            lowest_of(kind, bs),
            samplers,
            &mut lowest,
        );
        samplers = noted(
            kind == kind::SAMPLER,
            values_of(kind, bs),
            samplers,
            &mut values,
        );
        at = end;
    }
    Samplers { lowest, values }
}
