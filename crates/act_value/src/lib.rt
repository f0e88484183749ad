// The value of an expression, from the bytes of its nodes, by recursion over them.
#![tactic(auto)]

ghost use Rattle.std.specs.Prelude.{◌≡◌, ◌≤◌, ◌<◌, ◌/◌, length, get_or, set, neg_ℤ};
ghost use Rattle.semantics.specs.Numbers as No;
ghost use Rattle.semantics.specs.Record.{expression_in};
ghost use Rattle.semantics.specs.Value.{in_range};
ghost use Rattle.base_i32.specs.Code.{value_of, value_in};
ghost use Rattle.base_numbers.specs.Limit as Limit;
ghost use Rattle.act_value.specs.Parts.{draws_of};
ghost use Rattle.act_value.specs.Reading.{Ready, worth, Stands, Read, HasCode, Sampled, pad};
ghost use Rattle.act_value.specs.Reading.{leaf_code, moved_on, drawn_code, of_two, given};

use base_i32::Value;
use base_numbers::{code, limit, op};

#[derive(Drop)]
struct Node {
    op: u32,
    operand: u32,
}

// A tree that has been read: its value, and the node after it.
#[derive(Drop)]
struct Tree {
    value: Value,
    next: usize,
}

fn node_at(bs: &[u8], k: usize) -> Node
    requires { k < length bs.now / 6 }
    ensures { Stands bs.now k result }
{
    let from = op::NODE_BYTES * k;
    let to = from + op::NODE_BYTES;
    let node = &bs[from..to];
    let op = file_fields::u16_at(node, 0);
    let operand = file_fields::u32_at(node, 2);
    Node { op, operand }
}

// The code that stands in a row of numbers.
fn code_at(row: &[u64], i: u32) -> u32
    requires { HasCode row.now i }
    ensures { result ≡ get_or row.now i 0 }
{
    row[i as usize] as u32
}

// The code of a leaf's value.
fn leaf<'a>(globals: &'a [u64], locals: &'a [u64], clock: u32, op: u32, operand: u32) -> u32
    requires { (clock ≤ No.latest) × ((op ≡ 1 → HasCode globals.now operand) × (op ≡ 2 → HasCode locals.now operand)) }
    ensures { result ≡ leaf_code globals.now locals.now clock op operand }
{
    match op {
        op::LITERAL => base_i32::from_twos(operand),
        op::GLOBAL => code_at(globals, operand),
        op::LOCAL => code_at(locals, operand),
        _ => code::ZERO + clock,
    }
}

// An op 3 to 7 on the values of its operands, where both have one.
fn of_two(op: u32, both: bool, x: u32, y: u32) -> Value
    requires { 3 ≤ op }
    ensures { result ≡ value_in (given both (of_two op (value_of x) (value_of y))) }
{
    if !both {
        return Value { ok: false, code: 0 };
    }
    match op {
        op::ADD => base_i32::add(x, y),
        op::SUBTRACT => base_i32::subtract(x, y),
        op::MULTIPLY => base_i32::multiply(x, y),
        op::LESSER => Value {
            ok: true,
            code: base_i32::lesser(x, y),
        },
        _ => Value {
            ok: true,
            code: base_i32::greater(x, y),
        },
    }
}

fn negated(has: bool, x: u32) -> Value
    ensures { result ≡ value_in (given has (in_range (neg_ℤ (value_of x)))) }
{
    if has {
        base_i32::negate(x)
    } else {
        Value { ok: false, code: 0 }
    }
}

// A draw from sampler i: its seed moves on, and the value goes by the new one.
fn draw<'a>(
    lowest: &'a [u32],
    values: &'a [u32],
    seeds: &'a mut [u64; limit::SAMPLERS],
    i: u32,
) -> u32
    requires { Sampled lowest.now values.now seeds.old i }
    ensures { (result ≡ drawn_code lowest.now values.now seeds.old i)
        × (seeds.new ≡ set seeds.old i (moved_on seeds.old i)) }
{
    let k = i as usize;
    let old = seeds[k];
    let new = base_generator::next_seed(old);
    seeds[k] = new;
    base_generator::drawn(lowest[k], values[k], new)
}

// The tree that begins at the k-th node; each draw is made, in the order of the nodes, whatever comes of the value.
fn tree_at<'a>(
    bs: &'a [u8],
    globals: &'a [u64],
    locals: &'a [u64],
    clock: u32,
    lowest: &'a [u32],
    values: &'a [u32],
    seeds: &'a mut [u64; limit::SAMPLERS],
    k: usize,
) -> Tree
    requires { Ready bs.now globals.now locals.now lowest.now values.now seeds.old clock
        × (k < length bs.now / 6) }
    ensures { (w : Ready bs.now globals.now locals.now lowest.now
        values.now seeds.old clock)
        → Read w.to_read k w.ds result seeds.new }
{
    let node = node_at(bs, k);
    if node.op == op::DRAW {
        let code = draw(lowest, values, seeds, node.operand);
        return Tree {
            value: Value { ok: true, code },
            next: k + 1,
        };
    }
    let many = file_check_tails::operands(node.op);
    if many == 0 {
        let code = leaf(globals, locals, clock, node.op, node.operand);
        return Tree {
            value: Value { ok: true, code },
            next: k + 1,
        };
    }
    let first = tree_at(bs, globals, locals, clock, lowest, values, seeds, k + 1);
    if many == 1 {
        let value = negated(first.value.ok, first.value.code);
        return Tree {
            value,
            next: first.next,
        };
    }
    let second = tree_at(
        bs, globals, locals, clock, lowest, values, seeds, first.next,
    );
    let both = first.value.ok & second.value.ok;
    let value = of_two(node.op, both, first.value.code, second.value.code);
    Tree {
        value,
        next: second.next,
    }
}

// The value of the expression that stands in bs. `lowest` and `values` say what the samplers draw from, and `seeds` moves on by
// the expression's draws.
pub fn evaluate<'a>(
    bs: &'a [u8],
    globals: &'a [u64],
    locals: &'a [u64],
    clock: u32,
    lowest: &'a [u32],
    values: &'a [u32],
    seeds: &'a mut [u64; limit::SAMPLERS],
) -> Value
    requires { Ready bs.now globals.now locals.now lowest.now values.now seeds.old clock }
    ensures value { (w : Ready bs.now globals.now locals.now lowest.now
        values.now seeds.old clock)
        → result ≡ value_in (worth w.to_read (expression_in bs.now) w.ds) }
    ensures seeds_after { (w : Ready bs.now globals.now locals.now lowest.now
        values.now seeds.old clock)
        → seeds.new ≡ pad Limit.SAMPLERS 0 (draws_of (expression_in bs.now) w.ds) }
{
    let whole = tree_at(bs, globals, locals, clock, lowest, values, seeds, 0);
    whole.value
}
