// The numbers of document 01 and the places of the engine's rows, by name: once for the code. The definitions have those of
// document 01 in their own words (semantics, Numbers and Kinds); the specs of this crate have, in these words, what the rows
// need of them, and the places that follow.
#![tactic(auto)]

// 1 to 10 refuse a model.
pub mod refusal {
    pub const SHORT: u32 = 1;

    pub const KIND: u32 = 2;

    pub const PLACE: u32 = 3;

    pub const MANY: u32 = 4;

    pub const SIZE: u32 = 5;

    pub const VALUE: u32 = 6;

    pub const TWICE: u32 = 7;

    pub const NAME: u32 = 8;

    pub const ORDER: u32 = 9;

    pub const DEEP: u32 = 10;
}

// 20 to 30 are faults.
pub mod fault {
    pub const STATE: u32 = 20;

    pub const SUM: u32 = 21;

    pub const BACK: u32 = 22;

    pub const LATE: u32 = 23;

    pub const HELD: u32 = 24;

    pub const OWNED: u32 = 25;

    pub const OWING: u32 = 26;

    pub const FULL: u32 = 27;

    pub const BIN: u32 = 28;

    pub const NOTICES: u32 = 29;

    pub const JOURNAL: u32 = 30;
}

// How a run ends, as one number; a fault is its own.
pub mod answer {
    pub const CLOSED: u32 = 0;

    pub const IDLE: u32 = 1;

    pub const LIMIT: u32 = 2;
}

// The kinds of a journal line, and its bytes.
pub mod line {
    pub const STARTED: u32 = 1;

    pub const ENDED: u32 = 2;

    pub const BLOCKED: u32 = 3;

    pub const GRANTED: u32 = 4;

    pub const RESOURCE_RETURNED: u32 = 5;

    pub const BIN_RETURNED: u32 = 6;

    pub const WAITING_AS_SLAVE: u32 = 7;

    pub const FREED: u32 = 8;

    pub const TRACED: u32 = 9;

    pub const CLOSED: u32 = 10;

    pub const BYTES: usize = 16;

    // Where its parts begin, and how many bytes stand behind the length, as it says.
    pub const KIND_AT: usize = 2;

    pub const TIME_AT: usize = 4;

    pub const PROCESS_AT: usize = 8;

    pub const VALUE_AT: usize = 12;

    pub const LENGTH: u32 = 14;

    // Its bytes as `plan` prints it, at most: time, process, kind and value, a mark behind each, and a minus.
    pub const TEXT: usize = 40;
}

// The kinds of a record.
pub mod kind {
    pub const RES: u32 = 1;

    pub const BIN: u32 = 2;

    pub const SYNC: u32 = 3;

    pub const VAR: u32 = 4;

    pub const CLASS: u32 = 5;

    pub const BLOCK: u32 = 6;

    pub const ENTITY: u32 = 7;

    pub const SAMPLER: u32 = 8;

    pub const HOLD: u32 = 16;

    pub const PRIO: u32 = 17;

    pub const SET: u32 = 18;

    pub const LSET: u32 = 19;

    pub const DO: u32 = 20;

    pub const PUTR: u32 = 21;

    pub const PUTB: u32 = 22;

    pub const PUTS: u32 = 23;

    pub const BECOME: u32 = 24;

    pub const REQ: u32 = 25;

    pub const TRY: u32 = 26;

    pub const WHILE: u32 = 27;

    pub const START: u32 = 28;

    pub const TRACE: u32 = 29;

    pub const CLOSE: u32 = 30;
}

// The kinds of an item of a claim, and its bytes.
pub mod item {
    pub const GET_R: u32 = 0;

    pub const GET_B: u32 = 1;

    pub const GET_S: u32 = 2;

    pub const CONDITION: u32 = 3;

    pub const BYTES: usize = 8;

    // The last relation of a condition; they are numbered from 1.
    pub const LAST_RELATION: u32 = 6;
}

// How many there may be, and how large.
pub mod limit {
    // Of a model file: its bytes; each of RES, BIN, SYNC and VAR; samplers; a process's locals; CLASS, BLOCK, ENTITY, actions,
    // and branches of actions.
    pub const FILE: usize = 65535;

    pub const THINGS: usize = 32;

    pub const SAMPLERS: usize = 16;

    pub const LOCALS: usize = 8;

    pub const CLASSES: usize = 64;

    pub const BLOCKS: usize = 256;

    pub const ENTITIES: usize = 64;

    pub const ACTIONS: usize = 1024;

    pub const BRANCHES: usize = 4096;

    // The amount of an item, a share, a total or an offset; the blocks that nest; the nodes of an expression.
    pub const AMOUNT: u32 = 1000000;

    pub const DEPTH: usize = 8;

    pub const NODES: usize = 16;

    // The difference of a sampler's highest and lowest value; a seed, as a number of a file and as a word.
    pub const SPREAD: u32 = 1000000;

    pub const SEED: u32 = 2147483646;

    pub const SEED_WORD: u64 = SEED as u64;

    // Of a run: a time, a process's number, what a bin holds, living processes, returns that wait, the lines that a step asks
    // room for.
    pub const LATEST: u64 = 2000000000;

    pub const LAST_NUMBER: u64 = 2147483647;

    pub const FULL_BIN: u64 = 1000000000;

    pub const PLACES: usize = 64;

    pub const RETURNS: usize = 64;

    pub const STEP_LINES: usize = 66;

    // The items of a claim and the shares of a START, the branches of a TRY, and a process's locals, as numbers of a file are
    // compared with them.
    pub const LISTED: u32 = 4;

    pub const OFFERED: u32 = 4;

    pub const LOCAL: u32 = LOCALS as u32;

    // The steps that `plan` makes.
    pub const PLAN_STEPS: u32 = 1000000;

    // The least bound that is OVER.
    pub const OVER: u64 = 4294967296;
}

// Codes of numbers of the i32 range, v + 2^31: of 0 and of -1, of the lowest priority of a process, of the priority of returns;
// and the highest.
pub mod code {
    pub const ZERO: u32 = 2147483648;

    pub const MINUS_ONE: u32 = 2147483647;

    pub const LOWEST: u32 = 2147473648;

    pub const OF_RETURNS: u64 = 2147468648;

    pub const HIGHEST: u64 = 4294967295;

    // Those of 0 and of the lowest priority as words.
    pub const ZERO_WORD: u64 = ZERO as u64;

    pub const LOWEST_WORD: u64 = LOWEST as u64;
}

// The work, a row of numbers that shows the state of a run: where each part begins.
pub mod row {
    use super::{limit, process};

    // Single numbers: .. who has the floor (0 for nobody, else the place and 1), the living places as bits, how many events
    // and blocked there are.
    pub const CLOCK: usize = 0;

    pub const CLOSED: usize = 1;

    pub const LAST: usize = 2;

    pub const FLOOR: usize = 3;

    pub const LIVING: usize = 4;

    pub const EVENTS: usize = 5;

    pub const BLOCKED: usize = 6;

    pub const SPARE: usize = 7;

    // By number: what is free, the bins, the codes of the variables, how many wait for each sync.
    pub const FREE: usize = SPARE + 1;

    pub const BINS: usize = FREE + limit::THINGS;

    pub const GLOBALS: usize = BINS + limit::THINGS;

    pub const WAITS: usize = GLOBALS + limit::THINGS;

    // The blocked list; the keys of the events and what they do; the waiting lists; the processes; the seeds; and the end.
    pub const QUEUE: usize = WAITS + limit::THINGS;

    pub const KEYS: usize = QUEUE + WAITERS_MOST;

    pub const NOTICES: usize = KEYS + EVENTS_MOST;

    pub const WAITING: usize = NOTICES + EVENTS_MOST;

    pub const PROCESSES: usize = WAITING + WAITERS_ALL;

    pub const SEEDS: usize = PROCESSES + PROCESSES_ALL;

    pub const WORDS: usize = SEEDS + limit::SAMPLERS;

    // How many numbers the event list has room for, and a list of those that wait.
    pub const EVENTS_MOST: usize = limit::PLACES + limit::RETURNS;

    pub const WAITERS_MOST: usize = limit::PLACES;

    // How many numbers all waiting lists have, and all processes.
    pub const WAITERS_ALL: usize = WAITERS_MOST * limit::THINGS;

    pub const PROCESSES_ALL: usize = process::WORDS * limit::PLACES;

    // Where the locals of the process in place 0 begin, what it holds, and its slaves.
    pub const FIRST_LOCALS: usize = PROCESSES + process::LOCALS;

    pub const FIRST_HELD: usize = PROCESSES + process::HELD;

    pub const FIRST_OWNED: usize = PROCESSES + process::OWNED;
}

// The row of one process: where each part begins.
pub mod process {
    use super::limit;

    // Its number, the code of its priority, how many blocks it is in and how many slaves it has.
    pub const NUMBER: usize = 0;

    pub const PRIORITY: usize = 1;

    pub const DEPTH: usize = 2;

    pub const SLAVES: usize = 3;

    // The codes of its locals, what it holds, its blocks, the outermost first, its slaves in the order claimed; and the end.
    pub const LOCALS: usize = SLAVES + 1;

    pub const HELD: usize = LOCALS + limit::LOCALS;

    pub const BLOCKS: usize = HELD + limit::THINGS;

    pub const OWNED: usize = BLOCKS + limit::DEPTH;

    pub const WORDS: usize = 128;

    // How many numbers the slaves have: more than the 64 that there can be, so that a row has a power of 2.
    pub const OWNED_MOST: usize = WORDS - OWNED;

    // The innermost of n blocks stands n further than this.
    pub const BEFORE_BLOCKS: usize = BLOCKS - 1;
}

// The map of a model: where each part begins.
pub mod map {
    use super::limit;

    // Actions before each block, the place of each action, the body of each class, branches before each action.
    pub const FIRST: usize = 0;

    pub const PLACE: usize = FIRST + limit::BLOCKS + 1;

    pub const BODY: usize = PLACE + limit::ACTIONS;

    pub const FROM: usize = BODY + limit::CLASSES;

    // Of each branch: the place of its claim, and the resources, bins and syncs that it names, as bits.
    pub const CLAIM: usize = FROM + limit::ACTIONS + 1;

    pub const RESOURCES: usize = CLAIM + limit::BRANCHES;

    pub const BINS: usize = RESOURCES + limit::BRANCHES;

    pub const SYNCS: usize = BINS + limit::BRANCHES;

    // Of each sampler: the code of its lowest value, and how many values it has; and the end.
    pub const LOWEST: usize = SYNCS + limit::BRANCHES;

    pub const VALUES: usize = LOWEST + limit::SAMPLERS;

    pub const WORDS: usize = VALUES + limit::SAMPLERS;
}

// How numbers are packed into one word: a name in the plural is how many a part can tell apart, one in the singular what one
// more of a part adds to the word.
pub mod word {
    // A block that a process is in: the block, the index of the action where it stands in it, the rounds left.
    pub const BLOCKS: u64 = 65536;

    pub const ACTIONS: u64 = 65536;

    pub const ACTION: u64 = BLOCKS;

    pub const ROUND: u64 = BLOCKS * ACTIONS;

    pub const ROUNDS: u64 = 65536;

    // One that waits and a slave: the place, and then the key by which it waits, or its sync.
    pub const PLACES: u64 = 64;

    pub const KEY: u64 = PLACES;

    pub const SYNC: u64 = PLACES;

    // What an event does: the kind of the notice, its number (of a place, a resource or a bin), an amount, a giver.
    pub const KINDS: u64 = 4;

    pub const NUMBERS: u64 = 64;

    pub const AMOUNTS: u64 = 1048576;

    pub const AMOUNT: u64 = KINDS * NUMBERS;

    pub const GIVER: u64 = AMOUNT * AMOUNTS;

    // The key of an event: how far its rank, the code of a priority, is below the highest, and its time.
    pub const RANKS: u64 = 4294967296;

    pub const TIME: u64 = RANKS;
}

// The kinds of what an event does: it wakes a process, or a return of a resource or a bin.
pub mod notice {
    pub const WAKES: u64 = 0;

    pub const RESOURCE: u64 = 1;

    pub const BIN: u64 = 2;
}

// How many numbers one byte can tell apart, and two.
pub mod byte {
    pub const ONE: u32 = 256;

    pub const TWO: u32 = 65536;
}

// Limits as words, which a row has: how many there may be, and the largest amount, code of a number, word of a slave, word of
// one that waits, and key of an event.
pub mod most {
    use super::{code, limit, word};

    pub const THINGS: u64 = limit::THINGS as u64;

    pub const LOCALS: u64 = limit::LOCALS as u64;

    pub const BLOCKS: u64 = limit::BLOCKS as u64;

    pub const ACTIONS: u64 = limit::ACTIONS as u64;

    pub const PLACES: u64 = limit::PLACES as u64;

    pub const AMOUNT: u64 = limit::AMOUNT as u64;

    pub const CODE: u64 = code::HIGHEST;

    pub const SLAVE: u64 = word::SYNC * THINGS - 1;

    pub const WAITER: u64 = word::KEY * word::RANKS - 1;

    pub const KEY: u64 = word::TIME * limit::LATEST + code::HIGHEST;
}

// The groups that the records of a file are counted in, by number: a declaration's is its kind, and all actions are one.
pub mod group {
    // Places in a row of counts.
    pub const RES: usize = 1;

    pub const VAR: usize = 4;

    pub const BLOCK: usize = 6;

    pub const SAMPLER: usize = 8;

    // How many there are, with 0, which is none; and what stands for a local where the table of kinds says what a field names.
    pub const MANY: usize = 17;

    pub const LOCAL: usize = 17;

    // As the table of kinds has them.
    pub const NONE: u32 = 0;

    pub const BLOCKS: u32 = 6;

    pub const ACTIONS: u32 = 16;
}

// The columns of the table of kinds.
pub mod column {
    // The group that a record is counted in and the most of that; the bytes of its fields.
    pub const GROUP: usize = 0;

    pub const MOST: usize = 1;

    pub const HEAD: usize = 2;

    // The field with a stated set: its size, its place, the lowest and the highest.
    pub const FIELD_SIZE: usize = 3;

    pub const FIELD_AT: usize = 4;

    pub const LOWEST: usize = 5;

    pub const HIGHEST: usize = 6;

    // What follows the fields; the group of what its naming field names, and the place of that.
    pub const TAIL: usize = 7;

    pub const NAMING: usize = 8;

    pub const NAMING_AT: usize = 9;

    // How many columns there are, and rows: one for each kind from 0 on.
    pub const MANY: usize = 10;

    pub const KINDS: usize = 31;
}

// What follows a record's fields.
pub mod tail {
    pub const NOTHING: u32 = 0;

    pub const EXPRESSION: u32 = 1;

    pub const BRANCHES: u32 = 2;

    pub const CLAIM: u32 = 3;

    pub const SHARES: u32 = 4;
}

// The ops of an expression's nodes; how many there are, and the bytes of a node.
pub mod op {
    pub const LITERAL: u32 = 0;

    pub const GLOBAL: u32 = 1;

    pub const LOCAL: u32 = 2;

    pub const ADD: u32 = 3;

    pub const SUBTRACT: u32 = 4;

    pub const MULTIPLY: u32 = 5;

    pub const LESSER: u32 = 6;

    pub const GREATER: u32 = 7;

    pub const CLOCK: u32 = 8;

    pub const NEGATE: u32 = 9;

    pub const DRAW: u32 = 10;

    pub const MANY: usize = 11;

    pub const NODE_BYTES: usize = 6;
}

// A share of a START; and the numbers of the tests of the parts of one size that a body has: check 6, then check 8. The crates
// of the file name these tests by a type and its method; the numbers are for who writes them down.
pub mod part {
    pub const ITEM_VALID: u32 = 0;

    pub const SHARE_VALID: u32 = 1;

    pub const NODE_VALID: u32 = 2;

    pub const ITEM_KNOWN: u32 = 3;

    pub const SHARE_KNOWN: u32 = 4;

    pub const NODE_KNOWN: u32 = 5;

    // The bytes of a share of a START.
    pub const SHARE_BYTES: usize = 6;
}

// A branch of a TRY; and the numbers of its tests: checks 6 to 9.
pub mod branch {
    pub const VALID: u32 = 0;

    pub const ONCE: u32 = 1;

    pub const KNOWN: u32 = 2;

    pub const LATER: u32 = 3;

    // The bytes before its claim's items: its block, and how many they are.
    pub const HEAD: usize = 4;
}

// A number of the i32 range as its two's complement: the lowest word of a negative one, and the highest.
pub mod twos {
    pub const NEGATIVE: u32 = 2147483648;

    pub const HIGHEST: u32 = 4294967295;
}

// The answer of the bound as one word, as C is told it: a bound is its own, and these stand behind all of them.
pub mod bound {
    pub const NONE: u64 = 4294967296;

    pub const OVER: u64 = 8589934592;
}
