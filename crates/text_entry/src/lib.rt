// The record that a reader of texts is writing, a draft: what each token of a declaration or action adds to it.
#![tactic(auto)]

use base_numbers::{kind, op};
use std::marker::Model;
use text_list::{Blank, ShortList};
use text_tokens::mark;

pub mod symbol;

ghost use Rattle.std.specs.Prelude.{ℕ, ◌+◌, ◌%◌, ◌≤◌, ◌<◌, min, ltb, true, ◌||◌, ◌≡◌, List, [], ◌∷◌, ◌++◌, false, eqb, length, get_or, take, drop, replicate, if◌then◌else◌};
ghost use Rattle.text_semantics.specs.Numbers as No;
ghost use Rattle.text_semantics.specs.Token as T;
ghost use Rattle.text_semantics.specs.Meaning.{minus};
ghost use Rattle.text_semantics.specs.Written.{BYTE, two, four, code, node};
ghost use Rattle.text_semantics.specs.Reading.{Closer};
ghost use Rattle.semantics.specs.Kinds as K;
ghost use Rattle.text_machine.specs.Entry as M;
ghost use Rattle.text_machine.specs.Entry.{put, first_start, op_of, relation_of, mark_in, number_in, with_body};
ghost use Rattle.text_machine.specs.Codes.{FEW, token_of, symbol_of, part_of};
ghost use Rattle.text_entry.specs.Draft.{TWO, MOST, low, NODE, is_comma, store_of, Left, Read};

// So many bytes of a body are kept, and so many expressions may be open; a length is counted up to one that is more than any.
pub const KEPT: usize = 192;

const KEPT_COUNT: u32 = 192;

pub const DEPTH: usize = 17;

// Room for a body in an array of bytes, more than is kept of it; and for the open expressions in one of words, two each.
pub const BODY: usize = 256;

pub const STARTS: usize = 2 * DEPTH;

const FULL: usize = 65536;

// What the next name is there for: where one of a kind is asked for, this and the kind.
const ASK: u32 = 16;

const HIGHEST: u32 = 4294967295;

// Where the operands of an open expression begin in the body: its sum and its last term.
#[derive(Clone, Copy)]
struct Start {
    sum: usize,
    term: usize,
}

impl Model for Start {
    ghost use Rattle.text_machine.specs.Entry.{Start as StartValue};

    ghost Value = { StartValue };

    ghost view = { λ s. record { sum = s.sum; term = s.term } };

    ghost inverse = { λ s. record { sum = s.sum; term = s.term } };
}

impl Blank for Start {
    ghost blank = { record { sum = 0; term = 0 } };

    fn blank() -> Start {
        Start { sum: 0, term: 0 }
    }
}

// Where its declaration or action begins in the text, its kind, what the next name is for; its body, unless that is more than
// is kept, and how long it is; how many items or shares it has, and where their number stands in the body; a number that waits
// for its relation; and the expressions that are open, the innermost first.
#[derive(Clone, Copy)]
pub struct Draft {
    pub line: usize,
    pub kind: u32,
    pub role: u32,
    body: ShortList<u8, KEPT>,
    pub over: bool,
    pub size: usize,
    count: u32,
    at: usize,
    aside: u16,
    starts: ShortList<Start, DEPTH>,
}

impl Model for Draft {
    ghost use Rattle.text_machine.specs.Entry.{Draft as DraftValue};

    ghost Value = { DraftValue };

    ghost use Rattle.text_entry.specs.Shown.{draft_of, fields_of, Fine};

    ghost view = { draft_of };

    ghost invariant = { Fine };

    ghost inverse = { fields_of };
}

// The two's complement of -n.
fn negative(n: u32) -> u32
    ensures { result ≡ code (minus n) }
{
    if n == 0 {
        return 0;
    }
    HIGHEST - (n - 1)
}

// The op of a name of the kind w.
fn op_of(w: u32) -> u32
    ensures { (result ≡ op_of w) × (result < TWO) }
{
    match w {
        kind::VAR => op::GLOBAL,
        kind::SAMPLER => op::DRAW,
        _ => op::LOCAL,
    }
}

fn relation_of(s: u8) -> u8
    ensures { result ≡ relation_of s }
{
    match s {
        mark::LT => 1,
        mark::LE => 2,
        mark::EQ => 3,
        mark::NE => 4,
        mark::GE => 5,
        _ => 6,
    }
}

// The kind of the record that stores into a name of the kind w.
fn store_of(w: u32) -> u32
    ensures { result ≡ store_of w }
{
    if w == kind::VAR {
        return kind::SET;
    }
    kind::LSET
}

// ---- what a token has, and what stands for it

fn mark_in(kind: u8) -> u8
    ensures { (value : ℕ) (x : List ℕ) → result ≡ mark_in (token_of kind value x) }
{
    if kind < mark::END {
        return kind;
    }
    mark::END
}

fn number_in(kind: u8, value: u32) -> u32
    ensures { (x : List ℕ) → result ≡ number_in (token_of kind value x) }
{
    if kind == mark::NUMBER {
        return value;
    }
    0
}

fn is_expression(k: u32) -> bool
    ensures { result ≡ M.is_expression k }
{
    (k == kind::HOLD)
        | ((k == kind::PRIO) | ((k == kind::TRACE) | ((k == kind::SET) | (k == kind::LSET))))
}

// A node of an operation goes in front of what stands at `at`.
fn insert_node(body: &mut ShortList<u8, KEPT>, at: usize, op: u8)
    requires in_bounds { at ≤ length body.old.items }
    requires room { length body.old.items + NODE ≤ M.KEPT }
    ensures { body.new.items ≡ take at body.old.items ++ node op 0 ++ drop at body.old.items }
{
    // A node is its op and five more bytes; how many of them are there is named for the loop's invariant.
    for zeros in 0..op::NODE_BYTES - 1 {
        body.insert(at, 0);
    }
    body.insert(at, op);
}

impl Draft {
    // A record before the first token.
    pub fn new() -> Draft
        ensures { result ≡ M.begin 0 0 0 }
    {
        Draft {
            line: 0,
            kind: 0,
            role: 0,
            body: ShortList::new(),
            over: false,
            size: 0,
            count: 0,
            at: 0,
            aside: 0,
            starts: ShortList::new(),
        }
    }

    // The bytes of its body, none where that is more than is kept.
    pub fn body(&self) -> &[u8]
        ensures value { result.now ≡ self.now.body }
        ensures bound { length result.now ≤ M.KEPT }
    {
        self.body.as_slice()
    }

    fn begin(&mut self, p: usize, kind: u32, role: u32)
        ensures { self.new ≡ M.begin p kind role }
    {
        self.line = p;
        self.kind = kind;
        self.role = role;
        self.body.clear();
        self.over = false;
        self.size = 0;
        self.count = 0;
        self.at = 0;
        self.aside = 0;
        self.starts.clear();
    }

    // The try that an etry goes on with: its line, and its body so far.
    #[tactic(auto, unfolding(text_machine::specs::Entry::put))]
    pub fn resume(&mut self, line: usize, body: &[u8])
        requires { length body.now ≤ M.KEPT }
        ensures { self.new ≡ with_body (M.begin line K.TRY 0) body.now false (length body.now) }
    {
        self.begin(line, kind::TRY, 0);
        self.put(body);
    }

    // ---- the body

    // Whether n bytes more are more than is kept.
    fn loses(&self, n: usize) -> bool
        requires { n ≤ M.KEPT }
        ensures { result ≡ (self.now.over || ltb M.KEPT (self.now.size + n)) }
    {
        self.over | (KEPT < self.size + n)
    }

    // No more is kept.
    fn drop_body(&mut self)
        ensures { self.new ≡ M.dropped self.old }
    {
        self.over = true;
        self.body.clear();
    }

    // n bytes come to a body that is more than is kept with them.
    fn lose(&mut self, n: usize)
        requires n_bound { n ≤ M.KEPT }
        requires n_value { (self.old.over || ltb M.KEPT (self.old.size + n)) ≡ true }
        ensures { (bs : List ℕ) → self.new ≡ M.longer self.old n bs }
    {
        self.over = true;
        self.body.clear();
        self.size = FULL.min(self.size + n);
    }

    // Bytes behind the body.
    #[tactic(auto, unfolding(text_machine::specs::Entry::put))]
    fn put(&mut self, bytes: &[u8])
        requires { length bytes.now ≤ M.KEPT }
        ensures { self.new ≡ put self.old bytes.now }
    {
        let n = bytes.len();
        if self.loses(n) {
            self.lose(n);
            return;
        }
        self.size += n;
        // There is room for them.
        self.body.extend_from_slice(bytes);
    }

    fn put_two(&mut self, n: u32)
        requires { n < TWO }
        ensures { self.new ≡ put self.old (two n) }
    {
        self.put(&(n as u16).to_le_bytes());
    }

    fn put_four(&mut self, n: u32)
        ensures { self.new ≡ put self.old (four n) }
    {
        self.put(&n.to_le_bytes());
    }

    fn put_node(&mut self, op: u32, v: u32)
        requires { op < TWO }
        ensures { self.new ≡ M.leaf op v self.old }
    {
        self.put_two(op);
        self.put_four(v);
    }

    // A count of 0 behind the body.
    #[tactic(auto, unfolding(text_machine::specs::Entry::put_count))]
    fn put_count(&mut self)
        ensures { self.new ≡ M.put_count self.old }
    {
        let size = self.size;
        self.put_two(0);
        self.count = 0;
        self.at = if self.over { 0 } else { size };
    }

    // One more is counted, in the body too.
    #[tactic(auto, unfolding(text_machine::specs::Entry::one_more))]
    fn one_more(&mut self)
        ensures { self.new ≡ M.one_more self.old }
    {
        if self.over | (KEPT_COUNT <= self.count) {
            self.drop_body();
            return;
        }
        self.count += 1;
        // Behind the body nothing is written.
        if self.at < self.body.len() {
            self.body.set(self.at, self.count as u8);
        }
    }

    // One branch more, whose number is the first byte of the body.
    fn branching(&mut self)
        requires { get_or self.old.body 0 0 < MOST }
        ensures { self.new ≡ M.branching self.old }
    {
        if !self.body.is_empty() {
            let many = self.body.as_slice()[0];
            self.body.set(0, many + 1);
        }
    }

    // An operation before its first operand, which stands at p.
    #[tactic(auto, unfolding(text_machine::specs::Entry::put_at))]
    fn put_before(&mut self, op: u8, p: usize)
        ensures { self.new ≡ M.before op p self.old }
    {
        if self.loses(op::NODE_BYTES) {
            self.lose(op::NODE_BYTES);
            return;
        }
        let at = p.min(self.size);
        insert_node(&mut self.body, at, op);
        self.size += op::NODE_BYTES;
    }

    // ---- the open expressions

    fn opens(&mut self)
        ensures { self.new ≡ M.opens self.old }
    {
        if self.starts.is_full() {
            self.drop_body();
            return;
        }
        let size = self.size;
        let start = Start {
            sum: size,
            term: size,
        };
        self.starts.insert(0, start);
    }

    fn closes(&mut self)
        ensures { self.new ≡ M.closes self.old }
    {
        if !self.starts.is_empty() {
            self.starts.remove(0);
        }
    }

    // Where the innermost begins: its sum and its last term.
    fn first_start(&self) -> Start
        ensures { result ≡ first_start self.now.starts }
    {
        if self.starts.is_empty() {
            return Start { sum: 0, term: 0 };
        }
        self.starts.as_slice()[0]
    }

    fn new_term(&mut self)
        ensures { self.new ≡ M.new_term self.old }
    {
        let start = Start {
            sum: self.first_start().sum,
            term: self.size,
        };
        if self.starts.is_empty() {
            self.starts.push(start);
        } else {
            self.starts.set(0, start);
        }
    }

    // ---- the tokens, by what was still to come when each was read

    // A bracket opens an expression, or a share of a start.
    #[tactic(auto, unfolding(text_machine::specs::Entry::at_sign))]
    fn at_bracket(&mut self)
        ensures { (k : ℕ) → self.new ≡ M.at_sign k T.LP self.old }
    {
        if is_expression(self.kind) {
            self.opens();
            return;
        }
        if self.kind != kind::START {
            return;
        }
        if self.role != ASK + kind::RES {
            return;
        }
        self.one_more();
    }

    // A sign that had to come; k blocks have been opened.
    #[tactic(auto, unfolding(text_machine::specs::Entry::at_sign))]
    fn at_sign(&mut self, k: u32, s: u8)
        requires { k < TWO }
        ensures { self.new ≡ M.at_sign k s self.old }
    {
        match s {
            mark::LP => self.at_bracket(),
            mark::BECOMES => self.opens(),
            mark::LS => {
                if self.kind == kind::START {
                    return;
                }
                self.put_count();
            }
            mark::LB => {
                if self.kind == kind::DO {
                    self.put_two(k);
                }
            }
            _ => {}
        }
    }

    // A name that had to come, which has the number i.
    #[tactic(auto, unfolding(text_machine::specs::Entry::at_name))]
    fn at_name(&mut self, i: u32)
        requires { i < TWO }
        ensures { self.new ≡ M.at_name i self.old }
    {
        if self.role < ASK {
            return;
        }
        self.put_two(i);
    }

    // A number that had to come and is no count and behind no minus. Behind the offset of a start come its shares.
    #[tactic(auto, unfolding(text_machine::specs::Entry::at_number))]
    fn at_number(&mut self, n: u32)
        ensures { self.new ≡ M.at_number No.top_number n self.old }
    {
        let role = self.role;
        self.put_four(n);
        if self.kind != kind::START {
            return;
        }
        if role != ASK + kind::CLASS {
            return;
        }
        self.put_count();
        self.role = ASK + kind::RES;
    }

    // A factor that is a mark.
    fn deep(&mut self, s: u8)
        ensures { self.new ≡ M.deep s self.old }
    {
        match s {
            mark::CLOCK => self.put_node(op::CLOCK, 0),
            mark::LESSER => self.put_node(op::LESSER, 0),
            mark::GREATER => self.put_node(op::GREATER, 0),
            mark::LP => self.opens(),
            _ => {}
        }
    }

    // A name in it is of the kind w and has the number i.
    #[tactic(auto, unfolding(text_machine::specs::Entry::at_factor))]
    fn at_factor(&mut self, kind: u8, value: u32, w: u32, i: u32)
        ensures { (x : List ℕ) → self.new ≡ M.at_factor w i (token_of kind value x) self.old }
    {
        if kind <= mark::END {
            self.deep(kind);
            return;
        }
        match kind {
            mark::NUMBER => self.put_node(op::LITERAL, value),
            mark::NAME => self.put_node(op_of(w), i),
            _ => {}
        }
    }

    #[tactic(auto, unfolding(text_machine::specs::Entry::at_minus))]
    fn at_minus(&mut self, kind: u8, value: u32, w: u32, i: u32)
        ensures { (x : List ℕ) → self.new ≡ M.at_minus w i (token_of kind value x) self.old }
    {
        if kind <= mark::END {
            self.put_node(op::NEGATE, 0);
            self.deep(kind);
            return;
        }
        match kind {
            mark::NUMBER => self.put_node(op::LITERAL, negative(value)),
            mark::NAME => {
                self.put_node(op::NEGATE, 0);
                self.put_node(op_of(w), i);
            }
            _ => {}
        }
    }

    // What closes an expression; a comma begins another one.
    fn closing(&mut self, comma: bool)
        ensures { (c : Closer) → is_comma c ≡ comma → self.new ≡ M.closing c self.old }
    {
        self.closes();
        if comma {
            self.opens();
        }
    }

    // Behind a factor, where the mark s came.
    #[tactic(auto, unfolding(text_machine::specs::Entry::at_more))]
    fn at_more(&mut self, comma: bool, s: u8)
        ensures { (c : Closer) → is_comma c ≡ comma → self.new ≡ M.at_more c s self.old }
    {
        let start = self.first_start();
        match s {
            mark::STAR => self.put_before(5, start.term),
            mark::PLUS => {
                self.put_before(3, start.sum);
                self.new_term();
            }
            mark::MINUS => {
                self.put_before(4, start.sum);
                self.new_term();
            }
            _ => self.closing(comma),
        }
    }

    // A relation: its number, and then that of the variable.
    fn at_relation(&mut self, s: u8)
        ensures { self.new ≡ M.at_relation s self.old }
    {
        let variable = u32::from(self.aside);
        self.put(&[relation_of(s)]);
        self.put_two(variable);
    }

    // An item of a claim begins.
    fn getting(&mut self, item: u8, what: u32)
        requires { what < TWO }
        ensures { self.new ≡ M.getting item what self.old }
    {
        self.one_more();
        self.put(&[item, 0]);
        self.role = ASK + what;
    }

    #[tactic(auto, unfolding(text_machine::specs::Entry::at_item))]
    fn at_item(&mut self, kind: u8, value: u32, i: u32)
        requires { i < TWO }
        ensures { (x : List ℕ) → self.new ≡ M.at_item i (token_of kind value x) self.old }
    {
        match kind {
            mark::GETR => self.getting(0, kind::RES),
            mark::GETB => self.getting(1, kind::BIN),
            mark::GETS => self.getting(2, kind::SYNC),
            mark::NAME => {
                self.one_more();
                self.put(&[3]);
                self.aside = i as u16;
            }
            _ => {}
        }
    }

    // An action begins at p, and the next brace opens block k. The draft is the try that an etry goes on with.
    #[tactic(auto, unfolding(text_machine::specs::Entry::at_action))]
    fn at_action(&mut self, kind: u8, value: u32, w: u32, i: u32, k: u32, p: usize)
        requires i_bound { (i < TWO) × (k < TWO) }
        requires body_bound { kind ≡ T.ETRY → get_or self.old.body 0 0 < MOST }
        ensures { (x : List ℕ) → self.new ≡ M.at_action w i k p self.old (token_of kind value x) }
    {
        match kind {
            mark::HOLD => self.begin(p, kind::HOLD, 0),
            mark::PRIORITY => self.begin(p, kind::PRIO, 0),
            mark::TRACE => self.begin(p, kind::TRACE, 0),
            mark::DO => self.begin(p, kind::DO, 0),
            mark::PUTR => self.begin(p, kind::PUTR, ASK + kind::RES),
            mark::PUTB => self.begin(p, kind::PUTB, ASK + kind::BIN),
            mark::PUTS => self.begin(p, kind::PUTS, ASK + kind::SYNC),
            mark::BECOME => self.begin(p, kind::BECOME, ASK + kind::SYNC),
            mark::REQ => self.begin(p, kind::REQ, 0),
            mark::TRY => {
                self.begin(p, kind::TRY, 0);
                self.put_two(1);
                self.put_two(k);
            }
            mark::ETRY => {
                self.branching();
                self.put_two(k);
            }
            mark::WHILE => {
                self.begin(p, kind::WHILE, 0);
                self.put_two(k);
            }
            mark::START => self.begin(p, kind::START, ASK + kind::CLASS),
            mark::CLOSE => self.begin(p, kind::CLOSE, 0),
            mark::NAME => {
                self.begin(p, store_of(w), 0);
                self.put_two(i);
            }
            _ => self.begin(p, 0, 0),
        }
    }

    // A declaration begins at p.
    #[tactic(auto, unfolding(text_machine::specs::Entry::at_text))]
    fn at_text(&mut self, kind: u8, value: u32, p: usize)
        ensures { (x : List ℕ) → self.new ≡ M.at_text p (token_of kind value x) }
    {
        if mark::END < kind {
            self.begin(p, 0, 0);
            return;
        }
        match kind {
            mark::RES => self.begin(p, kind::RES, kind::RES),
            mark::BIN => self.begin(p, kind::BIN, kind::BIN),
            mark::SYNC => self.begin(p, kind::SYNC, kind::SYNC),
            mark::VAR => self.begin(p, kind::VAR, kind::VAR),
            mark::SAMPLER => self.begin(p, kind::SAMPLER, kind::SAMPLER),
            mark::CLASS => self.begin(p, kind::CLASS, kind::CLASS),
            _ => self.begin(p, kind::ENTITY, ASK + kind::CLASS),
        }
    }

    // A number with or without a minus, which is told apart from what stands behind it.
    fn at_signed(&mut self, kind: u8, value: u32)
        ensures { (x : List ℕ) → self.new ≡ (if eqb (mark_in (token_of kind value x)) T.MINUS
            then self.old else put self.old (four (number_in (token_of kind value x)))) }
    {
        if kind == mark::MINUS {
            return;
        }
        self.put_four(number_in(kind, value));
    }

    // ---- all of them

    // What is no sign and no part of an expression.
    #[tactic(auto, unfolding(text_machine::specs::Entry::drafted))]
    fn at_word(&mut self, s: u8, kind: u8, value: u32, w: u32, i: u32, k: u32, p: usize)
        requires lt_s { (T.END < s) × (s < FEW) }
        requires i_bound { (i < TWO) × (k < TWO) }
        requires read { Read s kind value self.old }
        ensures { (x : List ℕ) → self.new ≡ M.drafted w i k p self.old (symbol_of s) (token_of kind value x) self.old }
    {
        match s {
            mark::NUMBER => self.at_number(number_in(kind, value)),
            mark::NAME => self.at_name(i),
            symbol::COUNT => self.put_two(number_in(kind, value)),
            symbol::MAGNITUDE => self.put_four(negative(number_in(kind, value))),
            symbol::SIGNED => self.at_signed(kind, value),
            symbol::RELATION => self.at_relation(mark_in(kind)),
            symbol::ITEM => self.at_item(kind, value, i),
            symbol::CLAIM => self.at_item(kind, value, i),
            symbol::ITEMS => {}
            symbol::GIVES => {}
            symbol::GIVEN => {}
            symbol::ACTIONS => self.at_action(kind, value, w, i, k, p),
            symbol::TRY => self.at_action(kind, value, w, i, k, p),
            symbol::LINES => self.at_action(kind, value, w, i, k, p),
            symbol::BODY => {}
            _ => self.at_text(kind, value, p),
        }
    }

    // A part of an expression.
    #[tactic(auto, unfolding(text_machine::specs::Entry::drafted))]
    fn at_part(&mut self, part: u8, kind: u8, value: u32, w: u32, i: u32)
        ensures { (n k p : ℕ) (x : List ℕ) (kept : M.Draft) → self.new ≡
            M.drafted w i k p kept (part_of n part) (token_of kind value x) self.old }
    {
        match part {
            symbol::FACTOR => self.at_factor(kind, value, w, i),
            symbol::MINUS => self.at_minus(kind, value, w, i),
            symbol::COMMA => self.at_more(true, mark_in(kind)),
            _ => self.at_more(false, mark_in(kind)),
        }
    }

    // What the token of that kind and value at p, read where s was still to come, makes of the draft. A name in it is of the
    // kind w and has the number i; k blocks have been opened. At an etry the draft is the try that goes on. All of these go on as they
    // are, here and above, and not as one struct: text_machine's `drafted` and its parts take them one by one, and each contract
    // names its own of them.
    #[tactic(auto, unfolding(text_machine::specs::Entry::drafted))]
    pub fn drafted(&mut self, s: u8, kind: u8, value: u32, w: u32, i: u32, k: u32, p: usize)
        requires i_bound { (i < TWO) × (k < TWO) }
        requires read { Read s kind value self.old }
        ensures { Left (λ x. M.drafted w i k p self.old (symbol_of s) (token_of kind value x) self.old) self.new }
    {
        if s <= mark::END {
            self.at_sign(k, s);
            return;
        }
        if s < symbol::FEW {
            self.at_word(s, kind, value, w, i, k, p);
            return;
        }
        if s < symbol::EXPRESSION {
            return;
        }
        let part = (s - symbol::EXPRESSION) % symbol::PARTS;
        self.at_part(part, kind, value, w, i);
    }
}
