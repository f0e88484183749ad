// What the text reader has written down, of the declarations and actions that it has read.
#![tactic(auto)]

ghost use Rattle.std.specs.Prelude.{ℕ, ◌≡◌, ◌++◌, ◌+◌, ◌-◌, ◌≤◌, ◌<◌, ◌||◌, List, [], ◌∷◌, leb, length, get_or, drop};
ghost use Rattle.std.proofs.lemmas.List.Edits.{sets};
ghost use Rattle.semantics.specs.Kinds as K;
ghost use Rattle.semantics.specs.Numbers as No;
ghost use Rattle.semantics.specs.Words.{more};
ghost use Rattle.base_numbers.specs.Byte as Byte;
ghost use Rattle.text_semantics.specs.Written.{two as two_of};
ghost use Rattle.text_machine.specs.Entry.{FULL};
ghost use Rattle.text_machine.specs.Sheet.{headed, innermost, kept_in};
ghost use Rattle.text_machine.specs.Sheet as M;
ghost use Rattle.text_sheet.specs.Numbers.{HEAD, ROOM, entry, kept_length, class_noted, crowded, Counts, Branches, OpenedTotal};
ghost use Rattle.text_sheet.specs.Pieces.{pieces_from, Laid};
ghost use Rattle.text_sheet.specs.Told.{Put};
ghost use Rattle.std.proofs.Math.Option.{none, some};

use base_numbers::{group, kind, limit};
use std::marker::Model;
use text_list::{Blank, ShortList};

// How many bytes there is room for: of declarations; of a kept body, and of all of them.
pub mod room {
    use base_numbers::limit;

    pub const DECLARED: usize = 4096;

    pub const BODY: usize = 256;

    pub const BODIES: usize = BODY * limit::DEPTH;
}

pub use room::{BODY, DECLARED};

// .. and how many classes, pieces, their bytes, and open blocks, which are one more than the checks let pass.
const CLASSES: usize = limit::CLASSES;

const PIECES: usize = limit::ACTIONS;

const STAGE: usize = limit::FILE;

pub const LEVELS: usize = limit::DEPTH + 1;

// A class: where the number of its body block stands in the declarations, and its first line.
#[derive(Clone, Copy)]
struct Class {
    at: usize,
    line: usize,
}

impl Blank for Class {
    ghost blank = { record { at = 0; line = 0 } };

    fn blank() -> Class {
        Class { at: 0, line: 0 }
    }
}

// A record that stands in a block: the block, and where it ends among the bytes of all of them.
#[derive(Clone, Copy)]
struct Piece {
    block: u32,
    end: usize,
}

impl Blank for Piece {
    ghost blank = { record { block = 0; end = 0 } };

    fn blank() -> Piece {
        Piece { block: 0, end: 0 }
    }
}

// A try whose branches may still go on: its line, and its body so far.
#[derive(Clone, Copy)]
struct Kept {
    line: usize,
    body: ShortList<u8, BODY>,
}

impl Model for Kept {
    ghost use Rattle.text_machine.specs.Sheet.{Kept as KeptValue};

    ghost Value = { KeptValue };

    ghost view = { λ k. record { line = k.line; body = k.body.items } };

    ghost inverse = { λ k. record { line = k.line; body = record { items = k.body } } };
}

// An open block, and the try in it that may go on.
#[derive(Clone, Copy)]
struct Level {
    block: u32,
    kept: Option<Kept>,
}

impl Model for Level {
    ghost use Rattle.text_machine.specs.Sheet.{Level as LevelValue};
    ghost use Rattle.text_sheet.specs.Numbers.{kept_of, kept_from, kept_same};

    ghost Value = { LevelValue };

    ghost view = { λ l. record { block = l.block; kept = kept_of l.kept } };

    ghost inverse = { λ l. record { block = l.block; kept = kept_from l.kept } };

    ghost inverse_ok = { λ l h. rw (kept_same l.kept) };
}

impl Blank for Level {
    ghost blank = { record { block = 0; kept = none } };

    fn blank() -> Level {
        Level {
            block: 0,
            kept: None,
        }
    }
}

// How many records there are of each group, and their bytes; where the first declaration begins; the last action in the order
// of the file, by its block and its line; the bytes of the declarations; the classes, and the one that is being read; the
// records in blocks, in the order of the text, and their bytes one behind the other; the open blocks, the innermost first; and
// whether there was no room for something.
#[derive(Clone, Copy)]
pub struct Sheet {
    pub seen: [u32; group::MANY],
    pub total: usize,
    pub first: usize,
    pub last_block: u32,
    pub last_line: usize,
    declared: ShortList<u8, DECLARED>,
    classes: ShortList<Class, CLASSES>,
    pub current: usize,
    pieces: ShortList<Piece, PIECES>,
    stage: ShortList<u8, STAGE>,
    levels: ShortList<Level, LEVELS>,
    pub full: bool,
}

impl Model for Sheet {
    ghost use Rattle.text_machine.specs.Sheet.{Sheet as SheetValue};

    ghost Value = { SheetValue };

    ghost use Rattle.text_sheet.specs.Shown.{sheet_of, fields_of, fields_same, Fine};

    ghost view = { sheet_of };

    ghost invariant = { Fine };

    ghost inverse = { fields_of };

    ghost inverse_ok = { fields_same };
}

// A record's length and kind.
const HEAD: usize = 4;

// A class's record: its length and kind, and the two bytes of its body block.
const CLASS_BYTES: usize = HEAD + 2;

const CLASS: usize = kind::CLASS as usize;

const ACTION: usize = group::MANY - 1;

// A total is counted up to one that is over the longest file.
const FULL: usize = limit::FILE + 1;

// A record's length and kind, for a body of so many bytes.
fn head(kind: u32, size: usize) -> [u8; HEAD]
    requires { (kind < Byte.TWO) × (size + HEAD ≤ Byte.TWO) }
    ensures { result ≡ two_of (2 + size) ++ two_of kind }
{
    let size = ((2 + size) as u16).to_le_bytes();
    let kind = (kind as u16).to_le_bytes();
    [size[0], size[1], kind[0], kind[1]]
}

// A record behind others, for which there is room.
fn append<const N: usize>(out: &mut ShortList<u8, N>, kind: u32, body: &[u8])
    requires kind_bound { (kind < Byte.TWO) × (length body.now + HEAD ≤ Byte.TWO) }
    requires room { length out.old.items + (HEAD + length body.now) ≤ N }
    ensures { out.new.items ≡ out.old.items ++ headed kind body.now }
{
    out.extend_from_slice(&head(kind, body.len()));
    out.extend_from_slice(body);
}

fn added(total: usize, n: usize) -> usize
    ensures { result ≡ M.added total n }
{
    FULL.min(total.saturating_add(n))
}

// Bytes put at a place; answers the place behind them.
fn put(bytes: &[u8], out: &mut [u8], at: usize) -> usize
    requires { at + length bytes.now ≤ length out.old }
    ensures { Put bytes.now out.old at out.new result }
{
    let end = at + bytes.len();
    out[at..end].copy_from_slice(bytes);
    end
}

// What stands in a block.
fn write_block(block: u32, pieces: &[Piece], stage: &[u8], out: &mut [u8], at: usize) -> usize
    requires laid { Laid 0 (length stage.now) pieces.now }
    requires room { at + length (M.standing block (pieces_from stage.now 0 pieces.now)) ≤ length out.old }
    ensures { Put (M.standing block (pieces_from stage.now 0 pieces.now)) out.old at out.new result }
{
    let mut start = 0;
    let mut place = at;
    for piece in pieces {
        if piece.block == block {
            place = put(&stage[start..piece.end], out, place);
        }
        start = piece.end;
    }
    place
}

// So many blocks.
fn write_blocks(many: u32, pieces: &[Piece], stage: &[u8], out: &mut [u8], at: usize) -> usize
    requires laid { Laid 0 (length stage.now) pieces.now }
    requires room { at + length (M.blocks_from many 0 (pieces_from stage.now 0 pieces.now)) ≤ length out.old }
    ensures { Put (M.blocks_from many 0 (pieces_from stage.now 0 pieces.now)) out.old at out.new result }
{
    let mut place = at;
    for block in 0..many {
        place = put(&head(kind::BLOCK, 0), out, place);
        place = write_block(block, pieces, stage, out, place);
    }
    place
}

// The draft with which an etry goes on: its line, and its body so far.
#[derive(Clone, Copy)]
pub struct Resumed<'a> {
    pub line: usize,
    pub body: &'a [u8],
}

impl Sheet {
    // Nothing is written down.
    pub fn blank() -> Sheet
        ensures { result ≡ M.blank }
    {
        Sheet {
            seen: [0; group::MANY],
            total: 0,
            first: 0,
            last_block: 0,
            last_line: 0,
            declared: ShortList::new(),
            classes: ShortList::new(),
            current: 0,
            pieces: ShortList::new(),
            stage: ShortList::new(),
            levels: ShortList::new(),
            full: false,
        }
    }

    // ---- what is asked of it

    // How many blocks are open.
    pub fn depth(&self) -> usize
        ensures { result ≡ length self.now.levels }
    {
        self.levels.len()
    }

    // How many bytes of declarations there are, and how many classes.
    pub fn declared(&self) -> usize
        ensures { result ≡ length self.now.declared }
    {
        self.declared.len()
    }

    pub fn class_count(&self) -> usize
        ensures { result ≡ length self.now.class_at }
    {
        self.classes.len()
    }

    // How many records stand in blocks, and their bytes.
    pub fn pieces(&self) -> usize
        ensures { result ≡ length self.now.pieces }
    {
        self.pieces.len()
    }

    pub fn staged(&self) -> usize
        ensures { result ≡ self.now.staged }
    {
        self.stage.len()
    }

    // Whether there is no room for one record more in blocks, of n bytes.
    pub fn crowded(&self, n: usize) -> bool
        requires { n ≤ FULL + HEAD }
        ensures { result ≡ crowded n self.now }
    {
        (limit::ACTIONS <= self.pieces.len()) | (limit::FILE < self.stage.len() + n)
    }

    // The line of a class, and of the one that is being read; 0 where there is none.
    pub fn class_line(&self, class: usize) -> usize
        ensures { result ≡ get_or self.now.class_line class 0 }
    {
        if class < self.classes.len() {
            return self.classes.as_slice()[class].line;
        }
        0
    }

    pub fn current_line(&self) -> usize
        ensures { result ≡ get_or self.now.class_line self.now.current 0 }
    {
        self.class_line(self.current)
    }

    // The block that actions stand in, or 0.
    pub fn innermost(&self) -> u32
        ensures { result ≡ innermost self.now.levels }
    {
        if self.levels.is_empty() {
            return 0;
        }
        let inner = &self.levels.as_slice()[0];
        inner.block
    }

    // How many bytes of a try are kept in it, if there is one.
    pub fn kept_size(&self) -> Option<usize>
        ensures { result ≡ kept_length (kept_in self.now.levels) }
    {
        if self.levels.is_empty() {
            return None;
        }
        let level = &self.levels.as_slice()[0];
        match &level.kept {
            None => None,
            Some(kept) => Some(kept.body.len()),
        }
    }

    // The draft with which an etry goes on.
    pub fn resumed(&self) -> Resumed<'_>
        ensures draft { M.resumed (kept_in self.now.levels) ≡ entry result.line K.TRY (length result.body.now) result.body.now }
        ensures bound { length result.body.now ≤ ROOM }
    {
        let nothing = Resumed { line: 0, body: &[] };
        if self.levels.is_empty() {
            return nothing;
        }
        let open = &self.levels.as_slice()[0];
        match &open.kept {
            None => nothing,
            Some(kept) => Resumed {
                line: kept.line,
                body: kept.body.as_slice(),
            },
        }
    }

    // ---- the numbers

    // Where the first declaration begins.
    pub fn with_first(&mut self, first: usize)
        ensures { self.new ≡ M.with_first self.old first }
    {
        self.first = first;
    }

    // n bytes more.
    pub fn longer(&mut self, n: usize)
        ensures { self.new ≡ M.with_total self.old self.old.seen n }
    {
        self.total = added(self.total, n);
    }

    // One record more of a group, and n bytes.
    pub fn counted(&mut self, group: usize, n: usize)
        requires { (group < K.groups) × (get_or self.old.seen group 0 ≤ FULL) }
        ensures { self.new ≡ M.with_total self.old (more self.old.seen group 1) n }
    {
        let total = self.total;
        self.seen[group] += 1;
        self.total = added(total, n);
    }

    // One action more, at a line, in the innermost block.
    #[tactic(auto, unfolding(text_machine::specs::Sheet::counts))]
    pub fn counts(&mut self, line: usize, size: usize)
        requires { (get_or self.old.seen K.ACTION 0 ≤ FULL) × (size ≤ FULL) }
        ensures { Counts line size self.old self.new }
    {
        let block = self.innermost();
        self.counted(ACTION, HEAD + size);
        if self.last_block <= block {
            self.last_block = block;
            self.last_line = line;
        }
    }

    // ---- declarations: their records one behind the other, and where each class has its body block

    // A record, if there is room for it.
    #[tactic(auto, unfolding(text_machine::specs::Sheet::declaring))]
    pub fn declaring(&mut self, kind: u32, body: &[u8])
        requires { (kind < Byte.TWO) × (length body.now ≤ ROOM) }
        ensures { self.new ≡ M.declaring (headed kind body.now) self.old }
    {
        if DECLARED < self.declared.len() + (HEAD + body.len()) {
            self.full = true;
            return;
        }
        append(&mut self.declared, kind, body);
    }

    // A declaration but that of a class.
    #[tactic(auto, unfolding(text_machine::specs::Sheet::declares))]
    pub fn declares(&mut self, kind: u32, body: &[u8])
        requires { (get_or self.old.seen kind 0 ≤ FULL) × (kind < K.ACTION) × (length body.now ≤ ROOM) }
        ensures { self.new ≡ M.declares (entry 0 kind (length body.now) body.now) self.old }
    {
        self.counted(kind as usize, HEAD + body.len());
        self.declaring(kind, body);
    }

    // A class is noted, whose body block's number stands there, if there is room for it.
    #[tactic(auto, unfolding(crate::specs::Numbers::class_noted))]
    pub fn noted(&mut self, at: usize, line: usize)
        ensures { self.new ≡ class_noted at line self.old }
    {
        let next = self.classes.len();
        if limit::CLASSES <= next {
            self.full = true;
            return;
        }
        self.classes.push(Class { at, line });
        self.current = next;
    }

    // A class, at a line, with its body block.
    pub fn classes(&mut self, line: usize, block: u32)
        requires { (get_or self.old.seen K.CLASS 0 ≤ FULL) × (block < Byte.TWO) }
        ensures { self.new ≡ M.classes line block self.old }
    {
        let at = self.declared.len() + HEAD;
        self.counted(CLASS, CLASS_BYTES);
        self.declaring(kind::CLASS, &(block as u16).to_le_bytes());
        self.noted(at, line);
    }

    // An announced class gets its body block.
    #[tactic(auto, unfolding(text_machine::specs::Sheet::bodied))]
    pub fn bodied(&mut self, class: usize, block: u32)
        requires class_bound { (class < length self.old.class_at) × (block < Byte.TWO) }
        requires place { get_or self.old.class_at class 0 + 2 ≤ length self.old.declared }
        ensures { self.new ≡ M.bodied class block self.old }
    {
        let at = self.classes.as_slice()[class].at;
        let bytes = (block as u16).to_le_bytes();
        self.declared.set_all(at, &bytes);
        self.current = class;
    }

    // ---- blocks: the records that stand in them, the open ones, and the try that may go on in each

    // A record goes into the innermost block, if there is room for it.
    #[tactic(auto, unfolding(text_machine::specs::Sheet::stands))]
    pub fn stands(&mut self, kind: u32, body: &[u8])
        requires { (kind < Byte.TWO) × (length body.now ≤ ROOM) }
        ensures { self.new ≡ M.stands kind body.now self.old }
    {
        if self.crowded(HEAD + body.len()) {
            self.full = true;
            return;
        }
        let end = self.stage.len() + (HEAD + body.len());
        let block = self.innermost();
        append(&mut self.stage, kind, body);
        self.pieces.push(Piece { block, end });
    }

    // An action.
    #[tactic(auto, unfolding(text_machine::specs::Sheet::acts))]
    pub fn acts(&mut self, line: usize, kind: u32, body: &[u8])
        requires { (get_or self.old.seen K.ACTION 0 ≤ FULL) × (kind < Byte.TWO) × (length body.now ≤ ROOM) }
        ensures { self.new ≡ M.acts (entry line kind (length body.now) body.now) self.old }
    {
        self.counts(line, body.len());
        self.stands(kind, body);
    }

    // The try that was kept in the innermost block, if there is one, doesn't go on any more.
    #[tactic(auto, unfolding(text_machine::specs::Sheet::settled))]
    pub fn settle(&mut self)
        ensures { self.new ≡ M.settled self.old }
    {
        if self.levels.is_empty() {
            return;
        }
        let open = &self.levels.as_slice()[0];
        let block = open.block;
        let kept = open.kept;
        self.levels.set(0, Level { block, kept: None });
        if let Some(kept) = kept {
            self.stands(kind::TRY, kept.body.as_slice());
        }
    }

    // A brace is closed.
    #[tactic(auto, unfolding(text_machine::specs::Sheet::closed))]
    pub fn close_brace(&mut self)
        ensures { self.new ≡ M.closed self.old }
    {
        self.settle();
        if !self.levels.is_empty() {
            self.levels.remove(0);
        }
    }

    // A brace is opened.
    #[tactic(auto, unfolding(text_machine::specs::Sheet::braces))]
    pub fn braces(&mut self)
        requires { (get_or self.old.seen K.BLOCK 0 ≤ FULL) × (length self.old.levels ≤ No.deepest) }
        ensures { self.new ≡ M.braces self.old }
    {
        let block = self.seen[group::BLOCK];
        self.counted(group::BLOCK, HEAD);
        self.levels.insert(0, Level { block, kept: None });
    }

    // A branch of a try is counted: the first one, or one more of a try that goes on.
    pub fn branches(&mut self, line: usize, size: usize)
        requires { (get_or self.old.seen K.ACTION 0 ≤ FULL) × (size ≤ FULL) }
        ensures { Branches line size self.old self.new }
    {
        let kept = self.kept_size();
        match kept {
            None => self.counts(line, size),
            Some(kept) => self.longer(size.saturating_sub(kept)),
        }
    }

    // A try is kept in the innermost block, if there is one.
    fn keep(&mut self, line: usize, body: &[u8])
        requires { length body.now ≤ ROOM }
        ensures { self.new ≡ M.with_levels self.old (M.keeping (some (record { line = line; body = body.now })) self.old.levels) }
    {
        if self.levels.is_empty() {
            return;
        }
        let open = &self.levels.as_slice()[0];
        let block = open.block;
        let mut bytes = ShortList::new();
        bytes.extend_from_slice(body);
        let kept = Kept { line, body: bytes };
        self.levels.set(
            0,
            Level {
                block,
                kept: Some(kept),
            },
        );
    }

    // A branch of a try.
    #[tactic(auto, unfolding(text_machine::specs::Sheet::tries))]
    fn tries(&mut self, line: usize, body: &[u8])
        requires { (get_or self.old.seen K.ACTION 0 ≤ FULL) × (length body.now ≤ ROOM) }
        ensures { self.new ≡ M.tries (entry line K.TRY (length body.now) body.now) self.old }
    {
        self.branches(line, body.len());
        self.keep(line, body);
    }

    // A brace is opened by an action: a do, a while or a try.
    #[tactic(auto, unfolding(text_machine::specs::Sheet::opens))]
    pub fn opens(&mut self, line: usize, kind: u32, body: &[u8])
        requires open { (get_or self.old.seen K.ACTION 0 ≤ FULL) × (get_or self.old.seen K.BLOCK 0 ≤ FULL) × (length self.old.levels ≤ No.deepest) }
        requires kind_bound { (kind < Byte.TWO) × (length body.now ≤ ROOM) }
        ensures { self.new ≡ M.opens (entry line kind (length body.now) body.now) self.old }
    {
        let is_try = kind == kind::TRY;
        if is_try {
            self.tries(line, body);
        } else {
            self.acts(line, kind, body);
        }
        self.braces();
    }

    // How many bytes there are with an action of so many that opens a brace.
    #[tactic(auto, unfolding(text_machine::specs::Sheet::opens, text_machine::specs::Sheet::braces, text_machine::specs::Sheet::tries, text_machine::specs::Sheet::acts, text_machine::specs::Sheet::stands, text_machine::specs::Sheet::counts))]
    pub fn opened_total(&self, kind: u32, size: usize) -> usize
        requires { size ≤ FULL }
        ensures { OpenedTotal kind size self.now result }
    {
        let n = match self.kept_size() {
            Some(kept) if kind == kind::TRY => size.saturating_sub(kept),
            _ => HEAD + size,
        };
        added(added(self.total, n), HEAD)
    }

    // ---- the file: the declarations, and then the blocks, each with what stands in it

    // Put at the front of these bytes; answers how many it has.
    #[tactic(auto, unfolding(text_machine::specs::Sheet::file))]
    pub fn write(&self, out: &mut [u8]) -> usize
        requires { length (M.file self.now) ≤ length out.old }
        ensures value { result ≡ length (M.file self.now) }
        ensures out_after { out.new ≡ M.file self.now ++ drop result out.old }
    {
        let many = self.seen[group::BLOCK];
        let place = put(self.declared.as_slice(), out, 0);
        write_blocks(
            many,
            self.pieces.as_slice(),
            self.stage.as_slice(),
            out,
            place,
        )
    }
}
