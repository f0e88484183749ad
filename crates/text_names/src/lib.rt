// The names that a text has declared so far. A name is a part of the text and is not copied; what is kept of it is a row of the
// table. A row has a key of its name, so that a search looks at the text only where the keys are the same.
#![tactic(auto)]

ghost use Rattle.std.specs.Prelude.{◌≡◌, [], ◌-◌, ◌≤◌, ◌<◌, length};
ghost use Rattle.semantics.specs.Kinds as K;
ghost use Rattle.text_semantics.specs.Lexing.{same_bytes};
ghost use Rattle.text_names.specs.Table.{key_of, known_of, lacking_class};
ghost use Rattle.text_names.specs.Trouble.{asked_of, declared_of, embodied_of};

use arrayvec::ArrayVec;
use base_numbers::kind;
use std::marker::Model;

// So many names are kept: most_names.
pub const NAMES: usize = 217;

// What a local is; every other name is the kind of its record.
pub const LOCAL: u32 = 0;

// A key goes on by its base with each byte, below as many as there are.
const KEY_BASE: u64 = 257;

const KEYS: u64 = 4294967296;

// ---- a name in the text

// Whether two names are the same.
fn same(name: &[u8], other: &[u8]) -> bool
    ensures { result ≡ same_bytes name.now other.now }
{
    name == other
}

// The key of a name.
fn key_of(name: &[u8]) -> u64
    ensures { result ≡ key_of 0 name.now }
{
    let mut key = 0;
    for byte in name {
        key = (key * KEY_BASE + u64::from(*byte)) % KEYS;
    }
    key
}

// ---- what was found of a name

// What is known of a name: where it stands in the table, what it is, its number, and whether it lacks its body.
#[derive(Clone, Copy)]
pub struct Found {
    pub place: usize,
    pub kind: u32,
    pub number: u32,
    pub lacks: bool,
}

// Trouble with a name: it is not known or doesn't fit, or it is taken.
#[derive(Clone, Copy, Debug, PartialEq, Eq)]
pub enum Trouble {
    Unknown,
    Again,
}

// One of some kinds is asked for.
pub fn asks_trouble(found: Option<Found>, kinds: &[u32]) -> Result<(), Trouble>
    ensures { result ≡ asked_of found kinds.now }
{
    match found {
        Some(found) if kinds.contains(&found.kind) => Ok(()),
        _ => Err(Trouble::Unknown),
    }
}

// A name is declared.
pub fn declares_trouble(found: Option<Found>) -> Result<(), Trouble>
    ensures { result ≡ declared_of found }
{
    if found.is_some() {
        return Err(Trouble::Again);
    }
    Ok(())
}

// A class is announced.
pub fn announces_trouble(found: Option<Found>) -> Result<(), Trouble>
    ensures { result ≡ declared_of found }
{
    declares_trouble(found)
}

// A class gets its body.
pub fn embodies_trouble(found: Option<Found>) -> Result<(), Trouble>
    ensures { result ≡ embodied_of found }
{
    match found {
        Some(found) if !found.lacks => Err(Trouble::Again),
        _ => Ok(()),
    }
}

// ---- the table

// What is kept of a name: where it stands in the text, its length, its key, what it is, its number among those of its kind, and
// whether it lacks its body.
#[derive(Clone, Copy, Default)]
pub struct Row {
    pub at: usize,
    pub len: usize,
    pub key: u64,
    pub kind: u32,
    pub number: u32,
    pub lacks: bool,
}

// The number of the first class that lacks its body, if any name does: it is told by rows alone, whatever the text is.
pub fn lacking(rows: &[Row]) -> Option<usize>
    ensures { result ≡ lacking_class (known_of [] rows.now) }
{
    let mut others = false;
    let mut classes = 0;
    for row in rows {
        if row.kind == kind::CLASS {
            if row.lacks {
                return Some(classes);
            }
            classes += 1;
        } else {
            others = others | row.lacks;
        }
    }
    if others { Some(classes) } else { None }
}

// The names of a text, in their order.
#[derive(Drop)]
pub struct Names<'t> {
    text: &'t [u8],
    rows: ArrayVec<Row, NAMES>,
}

impl<'t> Model for Names<'t> {
    ghost use Rattle.text_names.specs.Table.{Table, Fine};

    ghost Value = { Table };

    ghost view = { λ n. record { text = n.text.now; rows = n.rows.items } };

    ghost invariant = { λ n. Fine n.text.now n.rows.items };
}

impl<'t> Names<'t> {
    ghost use Rattle.std.specs.Prelude.{true, false, IfSome};
    ghost use Rattle.text_semantics.specs.Names.{declares, announces, embodies, leaves, knows};
    ghost use Rattle.text_machine.specs.Machine.{keeps};
    ghost use Rattle.text_names.specs.Table.{known_in, part_of, Distinct, place_in, found_of};
    ghost use Rattle.text_names.specs.Rows.{with_rows, with_row, bodied_at, embodied, left, how_many};

    // No name is known yet.
    pub fn new(text: &'t [u8]) -> Self
        ensures { result ≡ record { text = text.now; rows = [] } }
    {
        Names {
            text,
            rows: ArrayVec::new(),
        }
    }

    // The place of the first that has as its name what stands from byte p up to byte e.
    fn find(&self, p: usize, e: usize) -> Option<usize>
        requires { (p ≤ e) × (e ≤ length self.now.text) }
        ensures value { result ≡ place_in (known_in self.now) (part_of self.now.text p e) }
        ensures bound { IfSome result (λ i. i < length self.now.rows) }
    {
        let name = &self.text[p..e];
        let key = key_of(name);
        for (i, row) in self.rows.iter().enumerate() {
            if row.key == key && same(name, &self.text[row.at..row.at + row.len]) {
                return Some(i);
            }
        }
        None
    }

    // The name that stands from byte p up to byte e, if it is known.
    pub fn look_up(&self, p: usize, e: usize) -> Option<Found>
        requires { (p ≤ e) × (e ≤ length self.now.text) }
        ensures { result ≡ found_of (known_in self.now) (part_of self.now.text p e) }
    {
        let place = self.find(p, e)?;
        let row = self.rows[place];
        Some(Found {
            place,
            kind: row.kind,
            number: row.number,
            lacks: row.lacks,
        })
    }

    // How many are of a kind.
    fn count(&self, kind: u32) -> u32
        ensures { result ≡ how_many kind self.now.rows }
    {
        let mut found = 0;
        for row in self.rows.iter() {
            if row.kind == kind {
                found += 1;
            }
        }
        found
    }

    // One more, unless as many are known as are kept: what stands from byte p up to byte e, of a kind; it lacks its body or not.
    fn add(&mut self, kind: u32, p: usize, e: usize, lacks: bool)
        requires { (p ≤ e) × (e ≤ length self.old.text) }
        ensures { self.new ≡ with_row self.old kind p e lacks }
    {
        if self.rows.is_full() {
            return;
        }
        let number = self.count(kind);
        let row = Row {
            at: p,
            len: e - p,
            key: key_of(&self.text[p..e]),
            kind,
            number,
            lacks,
        };
        self.rows.push(row);
    }

    // The name that stands from byte p up to byte e is declared as a kind.
    pub fn declare(&mut self, kind: u32, p: usize, e: usize)
        requires { (p ≤ e) × (e ≤ length self.old.text) }
        ensures rows { self.new ≡ with_row self.old kind p e false }
        ensures known { known_in self.new ≡ keeps (known_in self.old) (declares kind (part_of self.old.text p e)) }
    {
        let bare = false;
        self.add(kind, p, e, bare);
    }

    // It is announced as a class, whose body is still to come.
    pub fn announce(&mut self, p: usize, e: usize)
        requires { (p ≤ e) × (e ≤ length self.old.text) }
        ensures rows { self.new ≡ with_row self.old K.CLASS p e true }
        ensures known { known_in self.new ≡ keeps (known_in self.old) (announces (part_of self.old.text p e)) }
    {
        let bare = true;
        self.add(kind::CLASS, p, e, bare);
    }

    // The one at a place no longer lacks its body.
    fn give_body(&mut self, place: usize)
        requires { place < length self.old.rows }
        ensures { self.new ≡ with_rows self.old (bodied_at place self.old.rows) }
    {
        self.rows[place].lacks = false;
    }

    // It gets its body: a class that was announced, or a new one.
    pub fn embody(&mut self, p: usize, e: usize)
        requires distinct { Distinct (known_in self.old) }
        requires bounds { (p ≤ e) × (e ≤ length self.old.text) }
        ensures rows { self.new ≡ embodied self.old p e }
        ensures known { known_in self.new ≡ keeps (known_in self.old) (embodies (part_of self.old.text p e)) }
    {
        if self.rows.is_full() {
            return;
        }
        if let Some(place) = self.find(p, e) {
            self.give_body(place);
        } else {
            self.add(kind::CLASS, p, e, false);
        }
    }

    // At the end of a class body the locals are gone; what stands behind one moves down.
    pub fn leave(&mut self)
        ensures rows { self.new ≡ left self.old }
        ensures known { known_in self.new ≡ knows (known_in self.old) leaves }
    {
        self.rows.retain(|row| row.kind != LOCAL);
    }

    // At the end of the text, the number of the first class that lacks its body, if any name does.
    pub fn lacking(&self) -> Option<usize>
        ensures { result ≡ lacking_class (known_in self.now) }
    {
        lacking(self.rows.as_slice())
    }
}
