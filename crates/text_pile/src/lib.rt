// The grammar as a table, and the pile of what is still to come: what one token makes of it.
#![tactic(auto)]

ghost use Rattle.std.specs.Prelude.{◌≡◌, ◌+◌, ◌≤◌, ◌<◌, ◌++◌, length, map, get_or, take, drop, IfSome, All};
ghost use Rattle.text_machine.specs.Codes.{BAD};
ghost use Rattle.text_pile.specs.Pile.{SYMBOLS};
ghost use Rattle.text_pile.specs.Table.{CLASSES, COLUMNS, SHIFTS, entry_of, class_of, column_of, deeper_by};

use arrayvec::ArrayVec;
use std::marker::Model;

// How high the pile may become.
pub const HIGHEST: usize = 64;

// What a pile begins with: the text itself is still to come.
const TEXT: u8 = 63;

// A token that doesn't fit.
#[derive(Clone, Copy, Debug, PartialEq, Eq)]
pub struct Misfit;

// ---- tokens as columns of the table

// A kind is its own column; a number has this one up to a count's bound, and two more beyond it.
const NUMBER: u8 = 48;

const LARGER: usize = 51;

const LARGEST: usize = 52;

const COLUMNS: usize = 53;

// The column of what fits nowhere.
const BAD: usize = 50;

const TOP_COUNT: u32 = 65535;

const TOP_NUMBER: u32 = 2147483647;

const TOP_MAGNITUDE: u32 = 2147483648;

// ---- symbols as classes: the parts of expressions in which brackets may be opened are alike

// Below are marks, of which each is the one token that fits.
const MARKS: usize = NUMBER as usize;

const EXPRESSION: u8 = 72;

const DEEP: u8 = 77;

const PARTS: u8 = 5;

const CLASSES: usize = 82;

const ENTRIES: usize = (CLASSES - MARKS) * COLUMNS;

// For each class from MARKS on and for each column, the place in NEXT of what comes then; 0 where the token doesn't fit.
const TABLE: [u8; ENTRIES] = [
    0, 0, 0, 0, 0, 0, 0, 0, 0, 0, 0, 0, 0, 0, 0, 0, 0, 0, 0, 0, 0, 0, 0, 0, 0, 0, 0, 0, 0, 0, 0, 0,
    0, 0, 0, 0, 0, 0, 0, 0, 0, 0, 0, 0, 0, 0, 0, 0, 1, 0, 0, 1, 0, // 48 a number
    0, 0, 0, 0, 0, 0, 0, 0, 0, 0, 0, 0, 0, 0, 0, 0, 0, 0, 0, 0, 0, 0, 0, 0, 0, 0, 0, 0, 0, 0, 0, 0,
    0, 0, 0, 0, 0, 0, 0, 0, 0, 0, 0, 0, 0, 0, 0, 0, 0, 1, 0, 0, 0, // 49 a name
    0, 0, 0, 0, 0, 0, 0, 0, 0, 0, 0, 0, 0, 0, 0, 0, 0, 0, 0, 0, 0, 0, 0, 0, 0, 0, 0, 0, 0, 0, 0, 0,
    0, 0, 0, 0, 0, 0, 0, 0, 0, 0, 0, 0, 0, 0, 0, 0, 1, 0, 0, 0, 0, // 50 a count
    0, 0, 0, 0, 0, 0, 0, 0, 0, 0, 0, 0, 0, 0, 0, 0, 0, 0, 0, 0, 0, 0, 0, 0, 0, 0, 0, 0, 0, 0, 0, 0,
    0, 0, 0, 0, 0, 0, 0, 0, 0, 0, 0, 0, 0, 0, 0, 0, 1, 0, 0, 1, 1, // 51 a magnitude
    0, 0, 0, 0, 0, 0, 0, 0, 0, 0, 0, 0, 0, 0, 0, 0, 0, 0, 0, 0, 0, 0, 0, 0, 0, 0, 0, 0, 0, 0, 0, 0,
    0, 0, 0, 0, 0, 0, 2, 0, 0, 0, 0, 0, 0, 0, 0, 0, 1, 0, 0, 1, 0, // 52 signed
    0, 0, 0, 0, 0, 0, 0, 0, 0, 0, 0, 0, 0, 0, 0, 0, 0, 0, 0, 0, 0, 0, 0, 0, 0, 0, 0, 0, 0, 0, 0, 0,
    0, 0, 0, 0, 0, 0, 0, 0, 1, 0, 1, 1, 1, 1, 1, 0, 0, 0, 0, 0, 0, // 53 relation
    0, 0, 0, 0, 0, 0, 0, 0, 0, 0, 0, 0, 0, 0, 0, 0, 0, 0, 0, 0, 0, 0, 0, 4, 4, 4, 0, 0, 0, 0, 0, 0,
    0, 0, 0, 0, 0, 0, 0, 0, 0, 0, 0, 0, 0, 0, 0, 0, 0, 10, 0, 0, 0, // 54 item
    0, 0, 0, 0, 0, 0, 0, 0, 0, 0, 0, 0, 0, 0, 0, 0, 0, 0, 0, 0, 0, 0, 0, 13, 13, 13, 0, 0, 0, 0, 0,
    0, 1, 0, 0, 0, 0, 0, 0, 0, 0, 0, 0, 0, 0, 0, 0, 0, 0, 20, 0, 0, 0, // 55 claim
    0, 0, 0, 0, 0, 0, 0, 0, 0, 0, 0, 0, 0, 0, 0, 0, 0, 0, 0, 0, 0, 0, 0, 0, 0, 0, 0, 0, 0, 0, 0, 0,
    1, 0, 0, 24, 0, 0, 0, 0, 0, 0, 0, 0, 0, 0, 0, 0, 0, 0, 0, 0, 0, // 56 items
    0, 0, 0, 0, 0, 0, 0, 0, 0, 0, 0, 0, 0, 0, 0, 0, 0, 0, 0, 0, 0, 0, 0, 0, 0, 0, 0, 0, 0, 0, 1, 0,
    0, 0, 0, 27, 0, 0, 0, 0, 0, 0, 0, 0, 0, 0, 0, 0, 0, 0, 0, 0, 0, // 57 gives
    0, 0, 0, 0, 0, 0, 0, 0, 0, 0, 0, 0, 0, 0, 0, 0, 0, 0, 0, 0, 0, 0, 0, 0, 0, 0, 0, 0, 0, 0, 0, 0,
    1, 0, 0, 36, 0, 0, 0, 0, 0, 0, 0, 0, 0, 0, 0, 0, 0, 0, 0, 0, 0, // 58 given
    0, 0, 0, 0, 0, 0, 0, 0, 43, 43, 54, 59, 59, 67, 75, 81, 86, 0, 0, 93, 99, 43, 107, 0, 0, 0, 0,
    0, 0, 0, 0, 0, 0, 0, 1, 0, 0, 0, 0, 0, 0, 0, 0, 0, 0, 0, 0, 0, 0, 49, 0, 0, 0, // 59 actions
    0, 0, 0, 0, 0, 0, 0, 0, 43, 43, 54, 59, 59, 67, 75, 81, 86, 0, 86, 93, 99, 43, 107, 0, 0, 0, 0,
    0, 0, 0, 0, 0, 0, 0, 1, 0, 0, 0, 0, 0, 0, 0, 0, 0, 0, 0, 0, 0, 0, 49, 0, 0, 0, // 60 try
    0, 0, 0, 0, 0, 0, 0, 110, 43, 43, 54, 59, 59, 67, 75, 81, 86, 0, 0, 93, 99, 43, 107, 0, 0, 0,
    0, 0, 0, 0, 0, 0, 0, 0, 1, 0, 0, 0, 0, 0, 0, 0, 0, 0, 0, 0, 0, 0, 0, 49, 0, 0, 0, // 61 lines
    0, 0, 0, 0, 0, 0, 0, 0, 0, 0, 0, 0, 0, 0, 0, 0, 0, 0, 0, 0, 0, 0, 0, 0, 0, 0, 0, 0, 0, 0, 0, 0,
    0, 114, 0, 0, 1, 0, 0, 0, 0, 0, 0, 0, 0, 0, 0, 0, 0, 0, 0, 0, 0, // 62 body
    116, 116, 124, 130, 138, 150, 116, 0, 0, 0, 0, 0, 0, 0, 0, 0, 0, 0, 0, 0, 0, 0, 0, 0, 0, 0, 0,
    0, 0, 0, 0, 0, 0, 0, 0, 0, 0, 0, 0, 0, 0, 0, 0, 0, 0, 0, 0, 1, 0, 0, 0, 0, 0, // 63 text
    0, 0, 0, 0, 0, 0, 0, 0, 0, 0, 0, 0, 0, 0, 0, 0, 0, 0, 0, 0, 0, 0, 0, 0, 0, 0, 0, 0, 0, 0, 0, 0,
    0, 0, 0, 0, 1, 0, 0, 0, 0, 0, 0, 0, 0, 0, 0, 0, 0, 0, 0, 0, 0, // 64 few 0
    0, 0, 0, 0, 0, 0, 0, 0, 0, 0, 0, 0, 0, 0, 0, 0, 0, 0, 0, 0, 0, 0, 0, 0, 0, 0, 0, 0, 0, 0, 0, 0,
    0, 0, 0, 154, 1, 0, 0, 0, 0, 0, 0, 0, 0, 0, 0, 0, 0, 0, 0, 0, 0, // 65 few 1
    0, 0, 0, 0, 0, 0, 0, 0, 0, 0, 0, 0, 0, 0, 0, 0, 0, 0, 0, 0, 0, 0, 0, 0, 0, 0, 0, 0, 0, 0, 0, 0,
    0, 0, 0, 157, 1, 0, 0, 0, 0, 0, 0, 0, 0, 0, 0, 0, 0, 0, 0, 0, 0, // 66 few 2
    0, 0, 0, 0, 0, 0, 0, 0, 0, 0, 0, 0, 0, 0, 0, 0, 0, 0, 0, 0, 0, 0, 0, 0, 0, 0, 0, 0, 0, 0, 0, 0,
    0, 0, 0, 160, 1, 0, 0, 0, 0, 0, 0, 0, 0, 0, 0, 0, 0, 0, 0, 0, 0, // 67 few 3
    0, 0, 0, 0, 0, 0, 0, 0, 0, 0, 0, 0, 0, 0, 0, 0, 0, 0, 0, 0, 0, 0, 0, 0, 0, 0, 0, 0, 0, 0, 0, 0,
    0, 0, 0, 163, 1, 0, 0, 0, 0, 0, 0, 0, 0, 0, 0, 0, 0, 0, 0, 0, 0, // 68 few 4
    0, 0, 0, 0, 0, 0, 0, 0, 0, 0, 0, 0, 0, 0, 0, 0, 0, 0, 0, 0, 0, 0, 0, 0, 0, 0, 0, 0, 0, 0, 0, 0,
    0, 0, 0, 166, 1, 0, 0, 0, 0, 0, 0, 0, 0, 0, 0, 0, 0, 0, 0, 0, 0, // 69 few 5
    0, 0, 0, 0, 0, 0, 0, 0, 0, 0, 0, 0, 0, 0, 0, 0, 0, 0, 0, 0, 0, 0, 0, 0, 0, 0, 0, 0, 0, 0, 0, 0,
    0, 0, 0, 169, 1, 0, 0, 0, 0, 0, 0, 0, 0, 0, 0, 0, 0, 0, 0, 0, 0, // 70 few 6
    0, 0, 0, 0, 0, 0, 0, 0, 0, 0, 0, 0, 0, 0, 0, 0, 0, 0, 0, 0, 0, 0, 0, 0, 0, 0, 0, 0, 0, 0, 0, 0,
    0, 0, 0, 172, 1, 0, 0, 0, 0, 0, 0, 0, 0, 0, 0, 0, 0, 0, 0, 0, 0, // 71 few 7
    0, 0, 0, 0, 0, 0, 0, 0, 0, 0, 0, 0, 0, 0, 0, 0, 0, 0, 0, 0, 0, 0, 0, 0, 0, 0, 1, 0, 0, 0, 0, 0,
    0, 0, 0, 0, 0, 0, 175, 0, 0, 0, 0, 0, 0, 0, 0, 0, 1, 1, 0, 1, 0, // 72 factor, no bracket
    0, 0, 0, 0, 0, 0, 0, 0, 0, 0, 0, 0, 0, 0, 0, 0, 0, 0, 0, 0, 0, 0, 0, 0, 0, 0, 1, 0, 0, 0, 0, 0,
    0, 0, 0, 0, 0, 0, 175, 0, 0, 0, 0, 0, 0, 0, 0, 0, 1, 1, 0, 1, 1, // 73 minus, no bracket
    0, 0, 0, 0, 0, 0, 0, 0, 0, 0, 0, 0, 0, 0, 0, 0, 0, 0, 0, 0, 0, 0, 0, 0, 0, 0, 0, 0, 0, 0, 1, 0,
    0, 0, 0, 0, 0, 177, 177, 177, 0, 0, 0, 0, 0, 0, 0, 0, 0, 0, 0, 0, 0, // 74 up to ), no bracket
    0, 0, 0, 0, 0, 0, 0, 0, 0, 0, 0, 0, 0, 0, 0, 0, 0, 0, 0, 0, 0, 0, 0, 0, 0, 0, 0, 0, 0, 0, 0, 0,
    0, 0, 0, 1, 0, 180, 180, 180, 0, 0, 0, 0, 0, 0, 0, 0, 0, 0, 0, 0, 0, // 75 up to ,, no bracket
    0, 0, 0, 0, 0, 0, 0, 0, 0, 0, 0, 0, 0, 0, 0, 0, 0, 0, 0, 0, 0, 0, 0, 0, 0, 0, 0, 0, 0, 0, 0, 0,
    0, 0, 0, 0, 1, 183, 183, 183, 0, 0, 0, 0, 0, 0, 0, 0, 0, 0, 0, 0, 0, // 76 up to ;, no bracket
    0, 0, 0, 0, 0, 0, 0, 0, 0, 0, 0, 0, 0, 0, 0, 0, 0, 0, 0, 0, 0, 0, 0, 0, 0, 0, 1, 188, 188, 177,
    0, 0, 0, 0, 0, 0, 0, 0, 186, 0, 0, 0, 0, 0, 0, 0, 0, 0, 1, 1, 0, 1, 0, // 77 factor, brackets
    0, 0, 0, 0, 0, 0, 0, 0, 0, 0, 0, 0, 0, 0, 0, 0, 0, 0, 0, 0, 0, 0, 0, 0, 0, 0, 1, 188, 188, 177,
    0, 0, 0, 0, 0, 0, 0, 0, 186, 0, 0, 0, 0, 0, 0, 0, 0, 0, 1, 1, 0, 1, 1, // 78 minus, brackets
    0, 0, 0, 0, 0, 0, 0, 0, 0, 0, 0, 0, 0, 0, 0, 0, 0, 0, 0, 0, 0, 0, 0, 0, 0, 0, 0, 0, 0, 0, 1, 0,
    0, 0, 0, 0, 0, 194, 194, 194, 0, 0, 0, 0, 0, 0, 0, 0, 0, 0, 0, 0, 0, // 79 up to ), brackets
    0, 0, 0, 0, 0, 0, 0, 0, 0, 0, 0, 0, 0, 0, 0, 0, 0, 0, 0, 0, 0, 0, 0, 0, 0, 0, 0, 0, 0, 0, 0, 0,
    0, 0, 0, 1, 0, 197, 197, 197, 0, 0, 0, 0, 0, 0, 0, 0, 0, 0, 0, 0, 0, // 80 up to ,, brackets
    0, 0, 0, 0, 0, 0, 0, 0, 0, 0, 0, 0, 0, 0, 0, 0, 0, 0, 0, 0, 0, 0, 0, 0, 0, 0, 0, 0, 0, 0, 0, 0,
    0, 0, 0, 0, 1, 200, 200, 200, 0, 0, 0, 0, 0, 0, 0, 0, 0, 0, 0, 0, 0, // 81 up to ;, brackets
];

const NEXTS: usize = 203;

// At a place how many symbols come, and then those, the first to come last. Parts of expressions are as deep here as the class.
const NEXT: [u8; NEXTS] = [
    0, // 0 no token fits
    0, // 1 nothing
    1, 51, // 2 magnitude
    5, 30, 48, 35, 49, 29, // 4 ( name , number )
    2, 52, 53, // 10 relation signed
    6, 56, 30, 48, 35, 49, 29, // 13 ( name , number ) items
    3, 56, 52, 53, // 20 relation signed items
    2, 56, 54, // 24 item items
    8, 30, 58, 30, 48, 35, 49, 29, 31, // 27 [ ( name , number ) given )
    6, 58, 30, 48, 35, 49, 29, // 36 ( name , number ) given
    5, 59, 36, 154, 152, 29, // 43 ( factor ..) ; actions
    4, 59, 156, 152, 41, // 49 := factor ..; actions
    4, 59, 59, 33, 50, // 54 count { actions actions
    7, 59, 36, 30, 48, 35, 49, 29, // 59 ( name , number ) ; actions
    7, 59, 36, 30, 50, 35, 49, 29, // 67 ( name , count ) ; actions
    5, 59, 36, 30, 49, 29, // 75 ( name ) ; actions
    4, 59, 36, 55, 31, // 81 [ claim ; actions
    6, 60, 59, 33, 17, 55, 31, // 86 [ claim then { actions try
    5, 59, 59, 33, 55, 31, // 93 [ claim { actions actions
    7, 59, 36, 57, 48, 35, 49, 29, // 99 ( name , number gives ; actions
    2, 59, 36, // 107 ; actions
    3, 59, 71, 49, // 110 name few 7 actions
    1, 61, // 114 lines
    7, 63, 36, 30, 48, 35, 49, 29, // 116 ( name , number ) ; text
    5, 63, 36, 30, 49, 29, // 124 ( name ) ; text
    7, 63, 36, 30, 52, 35, 49, 29, // 130 ( name , signed ) ; text
    11, 63, 36, 30, 48, 35, 52, 35, 52, 35, 49, 29, // 138 ( name , signed , signed , number ) ; text
    3, 63, 62, 49, // 150 name body text
    2, 64, 49, // 154 name few 0
    2, 65, 49, // 157 name few 1
    2, 66, 49, // 160 name few 2
    2, 67, 49, // 163 name few 3
    2, 68, 49, // 166 name few 4
    2, 69, 49, // 169 name few 5
    2, 70, 49, // 172 name few 6
    1, 73, // 175 minus
    2, 74, 72, // 177 factor ..)
    2, 75, 72, // 180 factor ..,
    2, 76, 72, // 183 factor ..;
    1, 78, // 186 minus
    5, 74, 72, 75, 72, 29, // 188 ( factor .., factor ..)
    2, 79, 77, // 194 factor ..)
    2, 80, 77, // 197 factor ..,
    2, 81, 77, // 200 factor ..;
];

fn column_of(kind: u8, value: u32) -> usize
    requires { kind ≤ BAD }
    ensures { (result ≡ column_of kind value) × (result < COLUMNS) }
{
    let column = kind as usize;
    if kind != NUMBER {
        return column;
    }
    if value <= TOP_COUNT {
        return column;
    }
    if value <= TOP_NUMBER {
        return LARGER;
    }
    if value <= TOP_MAGNITUDE {
        return LARGEST;
    }
    BAD
}

fn class_of(symbol: u8) -> u8
    ensures { (result ≡ class_of symbol) × (result < CLASSES) × (result ≤ symbol) }
{
    if symbol < DEEP {
        return symbol;
    }
    DEEP + (symbol - DEEP) % PARTS
}

// The place of what comes then, unless the token doesn't fit.
fn place_of(table: &[u8; ENTRIES], class: u8, column: usize) -> Option<usize>
    requires { (class < CLASSES) × (column < COLUMNS) }
    ensures { result ≡ entry_of table.now class column }
{
    let class = usize::from(class);
    if class < MARKS {
        if class == column {
            return Some(1);
        }
        return None;
    }
    let place = usize::from(table[(class - MARKS) * COLUMNS + column]);
    if place == 0 {
        return None;
    }
    Some(place)
}

// The symbols of NEXT that stand at a place.
fn next_at(next: &[u8; NEXTS], place: usize) -> &[u8]
    requires { (place < NEXTS) × (place + 1 + get_or next.now place 0 ≤ NEXTS) }
    ensures { result.now ≡ take (get_or next.now place 0) (drop (place + 1) next.now) }
{
    let many = usize::from(next[place]);
    &next[place + 1..place + 1 + many]
}

// A symbol of NEXT, for one that is so much deeper than its class.
fn deeper(symbol: u8, by: u8) -> u8
    requires { (symbol < SYMBOLS) × (by < SHIFTS) }
    ensures { result ≡ deeper_by by symbol }
{
    if symbol < EXPRESSION {
        return symbol;
    }
    symbol + by
}

// Puts symbols of NEXT on, the first below.
fn put(symbols: &mut ArrayVec<u8, HIGHEST>, next: &[u8], by: u8)
    requires room { length symbols.old.items + length next.now ≤ HIGHEST }
    requires known { All (λ s. s < SYMBOLS) next.now }
    requires by_bound { by < SHIFTS }
    ensures { symbols.new.items ≡ symbols.old.items ++ map (deeper_by by) next.now }
{
    for symbol in next {
        symbols.push(deeper(*symbol, by));
    }
}

// The pile: the numbers of the symbols that are still to come, the next one last. They are numbers and no enum: text_machine's
// `symbol_of` names them so, and the table is asked by them.
#[derive(Drop)]
pub struct Pile {
    symbols: ArrayVec<u8, HIGHEST>,
}

impl Model for Pile {
    ghost use Rattle.std.specs.Prelude.{List, ℕ};
    ghost use Rattle.text_pile.specs.Pile.{Piled};

    ghost Value = { List ℕ };

    ghost view = { λ p. p.symbols.items };

    ghost invariant = { λ p. Piled p.symbols.items };
}

impl Pile {
    ghost use Rattle.std.specs.Prelude.{◌∷◌, [], ◌-◌, slice_get};
    ghost use Rattle.text_machine.specs.Codes as C;
    ghost use Rattle.text_pile.specs.Pile.{Turns};

    // The text itself is still to come.
    pub fn new() -> Self
        ensures { result ≡ C.TEXT ∷ [] }
    {
        let mut symbols = ArrayVec::new();
        symbols.push(TEXT);
        Pile { symbols }
    }

    // What is next to come, unless all of the text is there.
    pub fn top(&self) -> Option<u8>
        ensures value { result ≡ slice_get self.now (length self.now - 1) }
        ensures known { IfSome result (λ s. s < SYMBOLS) }
    {
        self.symbols.last().copied()
    }

    // One token: the top goes, and what comes by its rule is put on. Where the token doesn't fit, the pile stays as it was.
    pub fn turn(&mut self, kind: u8, value: u32) -> Result<(), Misfit>
        requires { kind ≤ BAD }
        ensures { Turns self.old kind value result self.new }
    {
        let Some(top) = self.top() else {
            return Err(Misfit);
        };
        let class = class_of(top);
        let Some(place) = place_of(&TABLE, class, column_of(kind, value)) else {
            return Err(Misfit);
        };
        let next = next_at(&NEXT, place);
        let rest = self.symbols.len() - 1;
        if HIGHEST < rest + next.len() {
            return Err(Misfit);
        }
        self.symbols.truncate(rest);
        put(&mut self.symbols, next, top - class);
        Ok(())
    }
}
