// An ordered list as rows of numbers, each lent by itself, and how many entries there are: a row of keys and a row of data, or a
// row of words that hold both. What is not used is 0. The data of an entry are packed into one word.
#![tactic(auto)]

ghost use Rattle.std.specs.Prelude.{◌≡◌, ◌≤◌, ◌<◌, ltb, length, take};
ghost use Rattle.semantics.specs.Words.{keep};
ghost use Rattle.base_numbers.specs.Word as Word;
ghost use Rattle.base_ordered.specs.Lines.{pad, Canon, inserted, removed, place_of};
ghost use Rattle.base_ordered.specs.Lines.{packed, kind_of, number_of, amount_of, giver_of};

use base_numbers::word;

// ---- one row

// How many at the front are below `limit`: with a limit just above a key, the place behind the key's equals.
pub fn place_below(row: &[u64], len: usize, limit: u64) -> usize
    requires { Canon row.now len }
    ensures { (result ≡ place_of (λ k. ltb k limit) (take len row.now)) × (result ≤ len) }
{
    let mut i = 0;
    while i < len {
        if limit <= row[i] {
            return i;
        }
        i += 1;
    }
    len
}

// `x` put in at a place; what stands from there on moves up.
pub fn put_in(row: &mut [u64], len: usize, at: usize, x: u64)
    requires canon { Canon row.old len }
    requires at_le_len { (at ≤ len) × (len < length row.old) }
    ensures { row.new ≡ pad (length row.old) (inserted at x (take len row.old)) }
{
    let mut i = len;
    while at < i {
        row[i] = row[i - 1];
        i -= 1;
    }
    row[at] = x;
}

// What stands at a place is gone; what stands behind it moves down, and the last place becomes 0.
pub fn take_out(row: &mut [u64], len: usize, at: usize)
    requires canon { Canon row.old len }
    requires at_lt_len { at < len }
    ensures { row.new ≡ pad (length row.old) (removed at (take len row.old)) }
{
    let last = len - 1;
    let mut i = at;
    while i < last {
        row[i] = row[i + 1];
        i += 1;
    }
    row[last] = 0;
}

// How many words are of a return: of a kind above 0.
pub fn count_returns(words: &[u64], len: usize) -> usize
    requires { Canon words.now len }
    ensures { (result ≡ length (keep (λ d. ltb 0 (kind_of d)) (take len words.now))) × (result ≤ len) }
{
    let mut found = 0;
    let mut i = 0;
    while i < len {
        if 0 < kind_of(words[i]) {
            found += 1;
        }
        i += 1;
    }
    found
}

// ---- the word of an entry

pub fn pack(kind: u64, number: u64, amount: u64, giver: u64) -> u64
    requires { (kind < Word.KINDS) × ((number < Word.NUMBERS) × ((amount < Word.AMOUNTS) × (giver < Word.GIVERS))) }
    ensures { result ≡ packed kind number amount giver }
{
    kind + word::KINDS * (number + word::NUMBERS * (amount + word::AMOUNTS * giver))
}

pub fn kind_of(word: u64) -> u64
    ensures { (result ≡ kind_of word) × (result < Word.KINDS) }
{
    word % word::KINDS
}

pub fn number_of(word: u64) -> u64
    ensures { (result ≡ number_of word) × (result < Word.NUMBERS) }
{
    word / word::KINDS % word::NUMBERS
}

pub fn amount_of(word: u64) -> u64
    ensures { (result ≡ amount_of word) × (result < Word.AMOUNTS) }
{
    word / word::AMOUNT % word::AMOUNTS
}

pub fn giver_of(word: u64) -> u64
    ensures { result ≡ giver_of word }
{
    word / word::GIVER
}
