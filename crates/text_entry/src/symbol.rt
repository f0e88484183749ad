// What can be still to come as numbers: a mark, a number and a name as the tokens have them; then these. The parts of an
// expression stand behind all others, so many for each number of brackets that may be opened. They are numbers and no enum, since
// text_machine's `symbol_of` and its theorems name them so.
pub const COUNT: u8 = 50;

pub const MAGNITUDE: u8 = 51;

pub const SIGNED: u8 = 52;

pub const RELATION: u8 = 53;

pub const ITEM: u8 = 54;

pub const CLAIM: u8 = 55;

pub const ITEMS: u8 = 56;

pub const GIVES: u8 = 57;

pub const GIVEN: u8 = 58;

pub const ACTIONS: u8 = 59;

pub const TRY: u8 = 60;

pub const LINES: u8 = 61;

pub const BODY: u8 = 62;

pub const TEXT: u8 = 63;

pub const FEW: u8 = 64;

pub const EXPRESSION: u8 = 72;

pub const PARTS: u8 = 5;

// Of those parts: a factor, one behind a minus, and what follows a factor before a comma.
pub const FACTOR: u8 = 0;

pub const MINUS: u8 = 1;

pub const COMMA: u8 = 3;
