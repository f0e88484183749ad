// The reader of texts: it goes over the tokens of a text once, and writes the records of the model or refuses the text.
#![tactic(auto)]

use base_numbers::{group, kind, limit};
use text_entry::{Draft, symbol};
use text_names::{Found, Names, Trouble};
use text_pile::Pile;
use text_sheet::Sheet;
use text_tokens::{Token, mark};

mod refused;
mod sort;

ghost use Rattle.std.specs.Prelude.{◌≡◌, List, ℕ, ◌+◌, ◌≤◌, ◌<◌, ◌↔◌, eqb, leb, ltb, false, true, length, get_or, OnOk, IfSome, unwrap_or, Bool, if◌then◌else◌};
ghost use Rattle.semantics.specs.Kinds as K;
ghost use Rattle.semantics.specs.Numbers as F;
ghost use Rattle.semantics.specs.Decode.{judged};
ghost use Rattle.text_semantics.specs.Numbers as No;
ghost use Rattle.text_semantics.specs.Grammar.{Name};
ghost use Rattle.text_semantics.specs.Names.{Known, trouble};
ghost use Rattle.text_semantics.specs.Meaning.{kind_of, number_of};
ghost use Rattle.text_machine.specs.Codes.{NAME, symbol_of, token_of};
ghost use Rattle.text_machine.specs.Entry.{FULL, KEPT, drafted, name_in};
ghost use Rattle.text_machine.specs.Entry as Entry;
ghost use Rattle.text_machine.specs.Sheet.{resumed, kept_in, blocks_of};
ghost use Rattle.text_machine.specs.Sheet as M;
ghost use Rattle.text_machine.specs.Machine as Machine;
ghost use Rattle.text_machine.specs.Machine.{asked};
ghost use Rattle.file_check_record.specs.Rows as Rows;
ghost use Rattle.text_pile.specs.Pile.{SYMBOLS};
ghost use Rattle.text_names.specs.Table.{Distinct, known_in, part_of, found_of};
ghost use Rattle.text_names.specs.Trouble.{trouble_in};
ghost use Rattle.text_reader.specs.Cut.{counts_of, cut_of};
ghost use Rattle.text_reader.specs.Sorts.{sort_of, event_by, known_by, body_by, sheet_by, cut_by, trouble_place, calls_by};
ghost use Rattle.text_reader.specs.Sorts as Sorts;
ghost use Rattle.text_reader.specs.Named.{sort_number, number_if, Tells, End};
ghost use Rattle.text_reader.specs.Drafted.{Fits, Within};
ghost use Rattle.text_reader.specs.Sheets.{Sound, Titled, Steps, class_of, is_class};
ghost use Rattle.text_semantics.specs.Answer.{answer as answer_to};
ghost use Rattle.text_reader.specs.Answer.{answered_of, told_of, left};

pub use refused::{Reason, Refused};
use sort::Sort;

// ---- symbols by their sorts

fn sort_of(s: u8) -> Sort
    requires { s < SYMBOLS }
    ensures { sort_number result ≡ sort_of (symbol_of s) }
{
    if s == mark::NAME {
        return Sort::Named;
    }
    if s == mark::SEMI {
        return Sort::Semi;
    }
    if s == mark::LB {
        return Sort::Brace;
    }
    if (s == symbol::ITEM) | (s == symbol::CLAIM) {
        return Sort::Variable;
    }
    if (symbol::ACTIONS <= s) & (s <= symbol::LINES) {
        return Sort::Block;
    }
    if s == symbol::BODY {
        return Sort::Body;
    }
    if s == symbol::TEXT {
        return Sort::Text;
    }
    if s < symbol::EXPRESSION {
        return Sort::Other;
    }
    if (s - symbol::EXPRESSION) % symbol::PARTS < 2 {
        return Sort::Value;
    }
    Sort::More
}

// ---- trouble with a name

// A role from here on asks for a name; below it, a name is declared.
const ASK: u32 = 16;

// What is a value, and what can be stored into.
const VALUES: [u32; 3] = [kind::VAR, text_names::LOCAL, kind::SAMPLER];

const STORES: [u32; 2] = [kind::VAR, text_names::LOCAL];

// At a name that has to come.
fn name_trouble(role: u32, found: Option<Found>) -> Result<(), Trouble>
    ensures { (ks : List Known) (x : Name) → Distinct ks → found ≡ found_of ks x → trouble_in result ≡ trouble ks (asked role x) }
{
    if ASK <= role {
        return text_names::asks_trouble(found, &[role - ASK]);
    }
    if role == kind::CLASS {
        return text_names::embodies_trouble(found);
    }
    text_names::declares_trouble(found)
}

// At any token, by what is known of the name that it is, and of the name of the class line.
fn trouble_of(
    sort: Sort,
    kind: u8,
    role: u32,
    own: Option<Found>,
    class: Option<Found>,
) -> Result<(), Trouble>
    ensures { (ks : List Known) (v : ℕ) (x y : Name) → Distinct ks → (kind ≡ NAME → own ≡ found_of ks x)
        → class ≡ found_of ks y → trouble_in result ≡ trouble ks (event_by (sort_number sort) role y (token_of kind v x)) }
{
    if kind == mark::SEMI {
        return match sort {
            Sort::Body => text_names::announces_trouble(class),
            _ => Ok(()),
        };
    }
    if kind != mark::NAME {
        return Ok(());
    }
    match sort {
        Sort::Named => name_trouble(role, own),
        Sort::Value => text_names::asks_trouble(own, &VALUES),
        Sort::Variable => text_names::asks_trouble(own, &[kind::VAR]),
        Sort::Block => text_names::asks_trouble(own, &STORES),
        _ => Ok(()),
    }
}

// What the names of a token are found to be: the kind and the number of the name that it is, and the number of the class whose
// line is being read, if that is known.
#[derive(Clone, Copy)]
struct Named {
    kind: u32,
    number: u32,
    class: Option<u32>,
}

// The kind and the number of the name that a token is.
fn known_as(own: Option<Found>) -> (u32, u32)
    ensures { (ks : List Known) (x : Name) → own ≡ found_of ks x → (result.0 ≡ kind_of ks x) × (result.1 ≡ number_of ks x) }
{
    match own {
        Some(own) => (own.kind, own.number),
        None => (text_names::LOCAL, 0),
    }
}

// The number of the class.
fn class_number(class: Option<Found>) -> Option<u32>
    ensures { (ks : List Known) (y : Name) → class ≡ found_of ks y → result ≡ number_if ks y }
{
    match class {
        Some(class) => Some(class.number),
        None => None,
    }
}

// A part of the text.
#[derive(Clone, Copy)]
struct Part {
    at: usize,
    end: usize,
}

// Where the name ends that a token is; what is no name has none.
fn name_end(token: Token) -> usize
    requires { token.place ≤ token.end }
    ensures { End token result }
{
    if token.kind == mark::NAME {
        token.end
    } else {
        token.place
    }
}

// The names of a token; that of the class line stands there.
fn look(names: &Names, sort: Sort, token: Token, role: u32, called: Part) -> Result<Named, Trouble>
    requires distinct { Distinct (known_in names.now) }
    requires within { Within (length names.now.text) token called }
    ensures { (v : ℕ) → Tells (known_in names.now) (sort_number sort) role (part_of names.now.text called.at called.end)
        (token_of token.kind v (part_of names.now.text token.place token.end)) result }
{
    let own = names.look_up(token.place, name_end(token));
    let class = names.look_up(called.at, called.end);
    trouble_of(sort, token.kind, role, own, class)?;
    let (kind, number) = known_as(own);
    Ok(Named {
        kind,
        number,
        class: class_number(class),
    })
}

// ---- what is known then

// So many levels are open.
fn know(names: &mut Names, sort: Sort, token: Token, role: u32, depth: usize, called: Part)
    requires distinct { Distinct (known_in names.old) }
    requires within { Within (length names.old.text) token called }
    requires named { sort_number sort ≡ Sorts.NAMED → token.kind ≡ NAME }
    ensures text { names.new.text ≡ names.old.text }
    ensures known { (v : ℕ) → known_in names.new ≡ known_by (sort_number sort) role depth
        (part_of names.old.text called.at called.end) (known_in names.old)
        (token_of token.kind v (part_of names.old.text token.place token.end)) }
{
    match sort {
        Sort::Named => {
            if (role < ASK) & (role != kind::CLASS) {
                names.declare(role, token.place, token.end);
            }
        }
        Sort::Block => {
            if (token.kind == mark::RB) & (depth == 1) {
                names.leave();
            }
        }
        Sort::Body => {
            if token.kind == mark::SEMI {
                names.announce(called.at, called.end);
            } else {
                names.embody(called.at, called.end);
            }
        }
        _ => {}
    }
}

// ---- the draft

// What a token makes of the draft: it was read where s was still to come.
fn draft_after(draft: &mut Draft, sheet: &Sheet, s: u8, token: Token, named: Named)
    requires kept { length (resumed (kept_in sheet.now.levels)).body ≤ KEPT }
    requires small { (blocks_of sheet.now < FULL) × (named.number < FULL) }
    requires fits { Fits s token.kind token.value (resumed (kept_in sheet.now.levels)) }
    ensures value { (x : List ℕ) → draft.new ≡ drafted named.kind named.number (blocks_of sheet.now) token.place
        (resumed (kept_in sheet.now.levels)) (symbol_of s) (token_of token.kind token.value x) draft.old }
    ensures sized { length draft.new.body ≤ draft.new.size }
{
    let opened = sheet.seen[group::BLOCK];
    if (token.kind == mark::ETRY) & (s == symbol::TRY) {
        let kept = sheet.resumed();
        draft.resume(kept.line, kept.body);
    }
    draft.drafted(
        s,
        token.kind,
        token.value,
        named.kind,
        named.number,
        opened,
        token.place,
    );
    // That its body is no longer than its size is true of every draft, and is told.
    let _ = &draft.size;
}

// ---- the checks at a cut

const ACTION: u32 = kind::HOLD;

// A record's length and kind.
const HEAD: usize = 4;

// The body block of a class that has no body.
const NO_BODY: u32 = 65535;

const CLASS: usize = kind::CLASS as usize;

const ACTIONS: usize = group::MANY - 1;

// A declaration is judged as if no block were there yet, and an action as the first one of a file.
fn counts_for(seen: [u32; group::MANY], kind: u32) -> [u32; group::MANY]
    ensures { result ≡ counts_of seen kind }
{
    if kind < ACTION {
        let mut counts = seen;
        counts[group::BLOCK] = 0;
        return counts;
    }
    let mut counts = [0; group::MANY];
    counts[group::BLOCK] = 1;
    counts
}

// Whether the record isn't right that a draft makes. One that is has all its bytes there, and a kind of two bytes.
fn faulty(sheet: &Sheet, draft: &Draft) -> bool
    ensures value { result ≡ Machine.faulty sheet.now draft.now }
    ensures right { result ≡ false → (draft.now.size ≡ length draft.now.body) × (draft.now.kind < FULL) }
{
    if draft.over {
        return true;
    }
    let counts = counts_for(sheet.seen, draft.kind);
    file_check_record::judge(counts, draft.kind, draft.body()).is_err()
}

// The first limit that is passed is told by its place; line is that of the record.
fn within_limits(sheet: &Sheet, line: usize) -> Result<(), usize>
    ensures limits { (d : Entry.Draft) → d.line ≡ line → cut_of result ≡ Machine.over_limit sheet.now d false }
    ensures small { OnOk result ((sheet.now.total < FULL) × (length sheet.now.levels ≤ F.deepest)) }
{
    if limit::FILE < sheet.total {
        return Err(sheet.first);
    }
    let classes = sheet.seen[CLASS] as usize;
    if limit::CLASSES < classes {
        return Err(line);
    }
    let actions = sheet.seen[ACTIONS] as usize;
    if limit::ACTIONS < actions {
        return Err(sheet.last_line);
    }
    let blocks = sheet.seen[group::BLOCK] as usize;
    if limit::BLOCKS < blocks {
        return Err(line);
    }
    let depth = sheet.depth();
    if limit::DEPTH < depth {
        return Err(sheet.current_line());
    }
    if sheet.full {
        return Err(0);
    }
    Ok(())
}

// The place of a record that isn't right, where the file would be so long with it.
fn wrong_place(sheet: &Sheet, total: usize, line: usize) -> usize
    ensures { result ≡ (if ltb F.longest_file total then sheet.now.first else line) }
{
    if limit::FILE < total {
        sheet.first
    } else {
        line
    }
}

// ---- the sheet

// A semicolon: a declaration or an action is there.
fn done(sheet: &mut Sheet, draft: &Draft) -> Result<(), usize>
    requires { Sound sheet.old }
    ensures { Steps (Machine.over_limit (Machine.done draft.now sheet.old) draft.now (Machine.faulty sheet.old draft.now))
        (Machine.done draft.now sheet.old) result sheet.new }
{
    if faulty(sheet, draft) {
        sheet.longer(HEAD + draft.size);
        return Err(wrong_place(sheet, sheet.total, draft.line));
    }
    if draft.kind < ACTION {
        sheet.declares(draft.kind, draft.body());
    } else {
        sheet.acts(draft.line, draft.kind, draft.body());
    }
    within_limits(sheet, draft.line)
}

// A brace that an action opens.
fn brace(sheet: &mut Sheet, draft: &Draft) -> Result<(), usize>
    requires { Sound sheet.old }
    ensures { Steps (Machine.over_limit (M.opens draft.now sheet.old) draft.now (Machine.faulty sheet.old draft.now))
        (M.opens draft.now sheet.old) result sheet.new }
{
    if faulty(sheet, draft) {
        let total = sheet.opened_total(draft.kind, draft.size);
        return Err(wrong_place(sheet, total, draft.line));
    }
    sheet.opens(draft.line, draft.kind, draft.body());
    within_limits(sheet, draft.line)
}

// Behind a block an action or a brace comes; only an etry goes on with the try that is kept.
fn behind(sheet: &mut Sheet, kind: u8)
    ensures { (v : ℕ) (x : List ℕ) → sheet.new ≡ Machine.behind sheet.old (token_of kind v x) }
{
    match kind {
        mark::RB => sheet.close_brace(),
        mark::ETRY => {}
        _ => sheet.settle(),
    }
}

// The body of a class begins, whose declaration begins at a line: it is announced, or a brace opens it. The class is known, or
// new.
fn body(sheet: &mut Sheet, line: usize, kind: u8, class: Option<u32>) -> Result<(), usize>
    requires sound { Sound sheet.old }
    requires titled { Titled sheet.old class }
    ensures { (d : Entry.Draft) (v : ℕ) (x : List ℕ) → d.line ≡ line
        → Steps (Machine.over_limit (body_by sheet.old (is_class class) (class_of class) line line (token_of kind v x)) d false)
        (body_by sheet.old (is_class class) (class_of class) line line (token_of kind v x)) result sheet.new }
{
    if kind == mark::SEMI {
        sheet.classes(line, NO_BODY);
        return within_limits(sheet, line);
    }
    let block = sheet.seen[group::BLOCK];
    match class {
        Some(class) => sheet.bodied(class as usize, block),
        None => sheet.classes(line, block),
    }
    sheet.braces();
    within_limits(sheet, line)
}

// A declaration begins at p: the first one is noted.
fn first(sheet: &mut Sheet, p: usize)
    ensures { sheet.new ≡ (if eqb sheet.old.total 0 then M.with_first sheet.old p else sheet.old) }
{
    if sheet.total == 0 {
        sheet.with_first(p);
    }
}

// What a token writes down, by the sort of what was still to come; the draft is the one with it. Where a limit is passed, its
// place.
fn sheet_after(
    sheet: &mut Sheet,
    draft: &Draft,
    sort: Sort,
    token: Token,
    class: Option<u32>,
) -> Result<(), usize>
    requires sound { Sound sheet.old }
    requires titled { sort_number sort ≡ Sorts.BODY → Titled sheet.old class }
    ensures { (v line : ℕ) (x : List ℕ) → (sort_number sort ≡ Sorts.BODY → line ≡ draft.now.line)
        → Steps (cut_by (sort_number sort) sheet.old draft.now (token_of token.kind v x)
        (sheet_by (sort_number sort) sheet.old (is_class class) (class_of class) line draft.now (token_of token.kind v x) token.place))
        (sheet_by (sort_number sort) sheet.old (is_class class) (class_of class) line draft.now (token_of token.kind v x) token.place)
        result sheet.new }
{
    match sort {
        Sort::Semi => done(sheet, draft),
        Sort::Brace => brace(sheet, draft),
        Sort::More => {
            if token.kind == mark::SEMI {
                done(sheet, draft)
            } else {
                Ok(())
            }
        }
        Sort::Block => {
            behind(sheet, token.kind);
            Ok(())
        }
        Sort::Body => body(sheet, draft.line, token.kind, class),
        Sort::Text => {
            first(sheet, token.place);
            Ok(())
        }
        _ => Ok(()),
    }
}

// ---- one token

// Where a name is in trouble.
fn trouble_place(sort: Sort, called: usize, p: usize) -> usize
    ensures { result ≡ trouble_place (sort_number sort) called p }
{
    if sort == Sort::Body { called } else { p }
}

// Where the name of a class line stands then: it is this token, or it stays.
fn called(sort: Sort, role: u32, token: Token, there: Part) -> Part
    ensures { (result.at ≡ (if calls_by (sort_number sort) role then token.place else there.at))
        × (result.end ≡ (if calls_by (sort_number sort) role then token.end else there.end)) }
{
    if (sort == Sort::Named) & (role == kind::CLASS) {
        Part {
            at: token.place,
            end: token.end,
        }
    } else {
        there
    }
}

// What a reader keeps: what is still to come, what is known, where the name of the class line stands that is being read, the
// record that is being written, and what has been written down.
#[derive(Drop)]
struct Reader<'t> {
    pile: Pile,
    names: Names<'t>,
    called: Part,
    draft: Draft,
    sheet: Sheet,
}

impl<'t> Reader<'t> {
    ghost use Rattle.text_reader.specs.Shown.{Ready, Begins};
    ghost use Rattle.text_reader.specs.Turn.{Came, Turns};
    ghost use Rattle.text_reader.specs.Going.{Reads, Done};
    ghost use Rattle.text_reader.specs.End.{Answers};

    // Before the first token.
    fn new(text: &'t [u8]) -> Self
        ensures { Begins text.now result }
    {
        Reader {
            pile: Pile::new(),
            names: Names::new(text),
            called: Part { at: 0, end: 0 },
            draft: Draft::new(),
            sheet: Sheet::blank(),
        }
    }

    // One token.
    fn turn(&mut self, token: Token) -> Result<(), Refused>
        requires ready { Ready self.old }
        requires came { Came self.old.names.text token }
        ensures { Turns token self.old result self.new }
    {
        let top = self.pile.top().unwrap_or(symbol::TEXT);
        if self.pile.turn(token.kind, token.value).is_err() {
            return Err(Refused {
                reason: Reason::Grammar,
                place: token.place,
            });
        }
        let sort = sort_of(top);
        let draft = &self.draft;
        let role = draft.role;
        let names = match look(&self.names, sort, token, role, self.called) {
            Ok(names) => names,
            Err(trouble) => {
                return Err(Refused {
                    reason: Reason::from(trouble),
                    place: trouble_place(sort, self.called.at, token.place),
                });
            }
        };
        draft_after(&mut self.draft, &self.sheet, top, token, names);
        let depth = self.sheet.depth();
        if let Err(place) = sheet_after(&mut self.sheet, &self.draft, sort, token, names.class) {
            return Err(Refused {
                reason: Reason::Checks,
                place,
            });
        }
        know(&mut self.names, sort, token, role, depth, self.called);
        self.called = called(sort, role, token, self.called);
        Ok(())
    }

    // All tokens of the text, or those up to the one that stops the reader.
    fn all_tokens(&mut self, text: &[u8]) -> Result<(), Refused>
        requires { Reads text.now 0 self.old }
        ensures { Done text.now result self.new }
    {
        let mut place = 0;
        // The label names the loop in its proof.
        'tokens: loop {
            let token = text_tokens::next(text, place);
            self.turn(token)?;
            if token.kind == mark::END {
                return Ok(());
            }
            place = token.end;
        }
    }

    // What is answered behind the last token, where the text has so many bytes: the records are written only if nothing is in the
    // way of that.
    fn answer(&self, bytes: usize, out: &mut [u8]) -> Result<usize, Refused>
        requires { length (M.file self.now.sheet) ≤ self.now.sheet.total }
        ensures { Answers self.now bytes out.old result out.new }
    {
        let sheet = &self.sheet;
        if sheet.full {
            return Err(Refused {
                reason: Reason::Checks,
                place: 0,
            });
        }
        let lacking = self.names.lacking();
        if let Some(class) = lacking {
            let line = sheet.class_line(class);
            return Err(Refused {
                reason: Reason::Checks,
                place: line,
            });
        }
        if out.len() < sheet.total {
            return Err(Refused {
                reason: Reason::Buffer,
                place: bytes,
            });
        }
        Ok(sheet.write(out))
    }
}

// ---- a text

// Reads a text: writes the records of its model into `out`, or refuses it and writes nothing.
pub fn read(text: &[u8], out: &mut [u8]) -> Result<usize, Refused>
    ensures value { told_of result ≡ answered_of (answer_to text.now (length out.old)) }
    ensures out_after { out.new ≡ left (answer_to text.now (length out.old)) out.old }
{
    let mut reader = Reader::new(text);
    reader.all_tokens(text)?;
    reader.answer(text.len(), out)
}
