// From the bytes of a text to its tokens, one at a call (docs/TEXT.md, section 2).
#![tactic(auto)]

ghost use Rattle.std.specs.Prelude.{◌≡◌, ℕ, true, unwrap_or, ◌+◌, ◌*◌, ◌-◌, ◌≤◌, ◌<◌, min, length, get_or};
ghost use Rattle.semantics.specs.Words.{all};
ghost use Rattle.text_semantics.specs.Numbers as No;
ghost use Rattle.text_semantics.specs.Lexing.{ZERO, BASE, is_digit, is_word, is_break, is_blank};
ghost use Rattle.text_tokens.specs.Next.{part, Next};
ghost use Rattle.text_tokens.specs.Parts.{passes, comments, Begins, WordAt, pack, spellings, SPELLED};
ghost use Rattle.text_tokens.specs.Parts.{longest_keyword, found, word_kind, double_of, single_of, Sign};

pub mod mark;

// A token, from its place to just before its end. The value is that of a number. Its kind is a number and no enum: text_machine's
// `token_of` takes it so, and text_semantics has marks as numbers.
#[derive(Clone, Copy)]
pub struct Token {
    pub kind: u8,
    pub place: usize,
    pub end: usize,
    pub value: u32,
}

// ---- bytes

const TAB: u8 = 9;

const LF: u8 = 10;

const CR: u8 = 13;

// Numbers are written in tens; what is beyond 32 bits fits nowhere, and stays at their end.
const BASE: u64 = 10;

const BEYOND: u32 = 4294967295;

fn is_digit(b: u8) -> bool
    ensures { result ≡ is_digit b }
{
    b.is_ascii_digit()
}

fn is_word(b: u8) -> bool
    ensures { result ≡ is_word b }
{
    b.is_ascii_alphanumeric()
}

fn is_break(b: u8) -> bool
    ensures { result ≡ is_break b }
{
    (b == LF) | (b == CR)
}

fn is_blank(b: u8) -> bool
    ensures { result ≡ is_blank b }
{
    (b == b' ') | ((b == TAB) | is_break(b))
}

// ---- blanks and comments

// Whether b is passed over, inside a comment or outside; and whether a comment goes on behind it.
fn passed(comment: bool, b: u8) -> bool
    ensures { result ≡ passes comment b }
{
    comment | (is_blank(b) | (b == b'#'))
}

fn commented(comment: bool, b: u8) -> bool
    ensures { result ≡ comments comment b }
{
    if comment { !is_break(b) } else { b == b'#' }
}

// Where the next token begins. It stays a function of its own: in a caller with much at hand a byte of a comment takes longer.
#[inline(never)]
fn begin(text: &[u8], at: usize) -> usize
    requires { at ≤ length text.now }
    ensures { Begins text.now at result }
{
    let mut comment = false;
    for i in at..text.len() {
        let b = text[i];
        if !passed(comment, b) {
            return i;
        }
        comment = commented(comment, b);
    }
    text.len()
}

// ---- words

// A run of letters and digits: where it ends, whether all of it is digits, and the number that it makes then.
#[derive(Drop)]
struct Word {
    end: usize,
    digits: bool,
    value: u32,
}

// The number n with a digit more.
fn grown(n: u32, b: u8) -> u32
    requires { ZERO ≤ b }
    ensures { result ≡ min No.beyond (BASE * n + (b - ZERO)) }
{
    let next = BASE * u64::from(n) + u64::from(b - b'0');
    next.min(u64::from(BEYOND)) as u32
}

// One pass over a word, which may be as long as the text.
fn word_at(text: &[u8], at: usize) -> Word
    requires { at ≤ length text.now }
    ensures { WordAt text.now at result }
{
    let mut digits = true;
    let mut value = 0;
    for end in at..text.len() {
        let b = text[end];
        if !is_word(b) {
            return Word { end, digits, value };
        }
        digits = digits & is_digit(b);
        value = grown(value, b);
    }
    Word {
        end: text.len(),
        digits,
        value,
    }
}

// What each keyword and each sign of one byte that begins no longer one is packed to, in the order of their marks.
const SPELLINGS: [u64; SPELLED] = [
    7562610, // res
    7235938, // bin
    1668184435, // sync
    7496054, // var
    32199663762104691, // sampler
    495857003619, // class
    133540892405349, // entity
    465490374508, // local
    1684828008, // hold
    8751735916104086128, // priority
    28516, // do
    1383363952, // putR
    1114928496, // putB
    1400141168, // putS
    111520694625634, // become
    7431538, // req
    7959156, // try
    1852139636, // then
    2037544037, // etry
    435610544247, // while
    500135195763, // start
    435459027572, // trace
    435728378979, // close
    1383359847, // getR
    1114924391, // getB
    1400137063, // getS
    461229747299, // clock
    125780054205804, // lesser
    32199697869664871, // greater
    40, // (
    41, // )
    91, // [
    93, // ]
    123, // {
    125, // }
    44, // ,
    59, // ;
    43, // +
    45, // -
    42, // *
    61, // =
];

const SPELLED: usize = 41;

const KEYWORDS: usize = 29;

const LONGEST_KEYWORD: usize = 8;

const LONGEST_NAME: usize = 16;

// What a byte adds to a number of bytes where it stands one place further.
const BYTE: u64 = 256;

// The bytes from `at` to just before `end` as one number, the first byte lowest.
fn packed(text: &[u8], at: usize, end: usize) -> u64
    requires { (at ≤ end) × (end ≤ length text.now) × (end - at ≤ longest_keyword) }
    ensures { result ≡ pack (part at end text.now) }
{
    let mut key = 0;
    for i in (at..end).rev() {
        key = BYTE * key + u64::from(text[i]);
    }
    key
}

fn spelling(k: usize) -> u64
    requires { k < SPELLED }
    ensures { result ≡ get_or spellings k 0 }
{
    SPELLINGS[k]
}

// The first mark from `from` to just before `to` that is spelled so.
fn find(key: u64, from: usize, to: usize) -> Option<u8>
    requires { (from ≤ to) × (to ≤ SPELLED) }
    ensures { (other : ℕ) → unwrap_or result other ≡ found from other (part from to spellings) key }
{
    for k in from..to {
        if key == spelling(k) {
            return Some(k as u8);
        }
    }
    None
}

// The kind of the word from place to end, which is not all digits.
fn word_kind(text: &[u8], place: usize, end: usize) -> u8
    requires { (place ≤ end) × (end ≤ length text.now) × (all is_word (part place end text.now) ≡ true) }
    ensures { result ≡ word_kind (part place end text.now) }
{
    let size = end - place;
    if LONGEST_NAME < size {
        return mark::BAD;
    }
    if LONGEST_KEYWORD < size {
        return mark::NAME;
    }
    find(packed(text, place, end), 0, KEYWORDS).unwrap_or(mark::NAME)
}

// The token that begins with a letter or a digit.
fn word_token(text: &[u8], place: usize) -> Token
    requires { (place < length text.now) × (is_word (get_or text.now place 0) ≡ true) }
    ensures { Next text.now place result }
{
    let word = word_at(text, place);
    let end = word.end;
    if word.digits {
        return Token {
            kind: mark::NUMBER,
            place,
            end,
            value: word.value,
        };
    }
    Token {
        kind: word_kind(text, place, end),
        place,
        end,
        value: 0,
    }
}

// ---- signs

// The sign of two bytes that these are, or no token.
#[tactic(auto, unfolding(crate::specs::Parts::double_of))]
fn double(b: u8, next: u8) -> u8
    ensures { result ≡ double_of b next }
{
    match (b, next) {
        (b':', b'=') => mark::BECOMES,
        (b'<', b'=') => mark::LE,
        (b'<', b'>') => mark::NE,
        (b'>', b'=') => mark::GE,
        _ => mark::BAD,
    }
}

// The sign of one byte that this is, or no token.
#[tactic(auto, unfolding(crate::specs::Parts::single_of))]
fn single(b: u8) -> u8
    ensures { result ≡ single_of b }
{
    match b {
        b'<' => mark::LT,
        b'>' => mark::GT,
        _ => find(u64::from(b), KEYWORDS, SPELLED).unwrap_or(mark::BAD),
    }
}

// The byte at `at`; behind the end 0, which continues no sign.
fn byte_at(text: &[u8], at: usize) -> u8
    ensures { result ≡ get_or text.now at 0 }
{
    text.get(at).copied().unwrap_or(0)
}

// The token that begins with another byte.
fn sign_token(text: &[u8], place: usize) -> Token
    requires { Sign text.now place }
    ensures { Next text.now place result }
{
    let b = text[place];
    let kind = double(b, byte_at(text, place + 1));
    if kind != mark::BAD {
        let end = place + 2;
        return Token {
            kind,
            place,
            end,
            value: 0,
        };
    }
    let end = place + 1;
    Token {
        kind: single(b),
        place,
        end,
        value: 0,
    }
}

// ---- tokens

// The first token that begins at `at` or behind. It touches the bytes up to the token's end and one more.
pub fn next(text: &[u8], at: usize) -> Token
    requires { at ≤ length text.now }
    ensures { Next text.now at result }
{
    let place = begin(text, at);
    if place == text.len() {
        return Token {
            kind: mark::END,
            place,
            end: place,
            value: 0,
        };
    }
    if is_word(text[place]) {
        return word_token(text, place);
    }
    sign_token(text, place)
}
