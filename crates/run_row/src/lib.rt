// An open run that is handed in as any bytes and any row of words: opened, tested for soundness, and moved on by a call.
#![tactic(auto)]

ghost use Rattle.std.specs.Prelude.{◌≡◌};
ghost use Rattle.semantics.specs.Bytes.{records_from};
ghost use Rattle.semantics.specs.Desk.{check_file};
ghost use Rattle.file_check.specs.Check.{passed_of};
ghost use Rattle.file_map.specs.MapOf.{map_of};
ghost use Rattle.row_view.specs.View.{sound_row};
ghost use Rattle.run_row.specs.Handed.{Passing};
ghost use Rattle.run_row.specs.Open.{open_row, TellsOpened, unopened_number, unopened_place};
ghost use Rattle.run_row.specs.Call.{away, asked, call_row, TellsCall};
ghost use Rattle.run_row.specs.declared.Unopened.TheVariants.{File};

use base_numbers::{fault, row};
use file_check::Refused;
use run_limit::{Answer, Ran};

/// Why no run is opened: the file is refused, or the row hasn't the length of a run.
#[derive(Clone, Copy, PartialEq, Eq)]
pub enum Unopened {
    File(Refused),
    Length,
}

impl Unopened {
    /// The refusal's number, or 20.
    pub fn number(self) -> u32
        ensures { result ≡ unopened_number self }
    {
        match self {
            Unopened::File(refused) => refused.refusal.number(),
            Unopened::Length => fault::STATE,
        }
    }

    /// The refusal's place, or 0.
    pub fn place(self) -> usize
        ensures { result ≡ unopened_place self }
    {
        match self {
            Unopened::File(refused) => refused.place,
            Unopened::Length => 0,
        }
    }
}

impl From<Refused> for Unopened {
    ghost from_gives = { λ r e. e ≡ File r };

    fn from(r: Refused) -> Unopened {
        Unopened::File(r)
    }
}

/// Opens a run of the model file s in the row w, which stays as it was where none is opened.
pub fn open_row<'a>(s: &'a [u8], w: &'a mut [u64]) -> Result<(), Unopened>
    ensures { TellsOpened (open_row s.now w.old) result w.new }
{
    file_check::check(s)?;
    if w.len() != row::WORDS {
        return Err(Unopened::Length);
    }
    let map = file_map::map_of(s);
    let mut begun = [0u64; row::WORDS];
    run_fresh::fresh(s, &map.words, &mut begun);
    row_work::copy_words(&begun, w);
    Ok(())
}

// Whether the row w shows a sound state of the model of s, a file that the check accepts and whose map is `map`. The totals of
// its resources are what is free in a fresh run, which is laid aside.
fn sound_of<'a>(s: &'a [u8], map: &'a [u32], w: &'a [u64]) -> bool
    requires passing { Passing s.now }
    requires map_value { map.now ≡ map_of (records_from 0 s.now) }
    ensures { result ≡ sound_row s.now w.now }
{
    let counts = file_index::counts_of(s);
    let resources = counts.resources;
    let bins = counts.bins;
    let syncs = counts.syncs;
    if !row_view::shows(resources, bins, syncs, counts.variables, counts.samplers, w) {
        return false;
    }
    let index = file_index::index_of(s);
    let mut aside = [0u64; row::WORDS];
    run_fresh::fresh(s, map, &mut aside);
    row_sound::sound_in(
        s,
        map,
        w,
        &aside[row::FREE..row::BINS],
        resources,
        bins,
        syncs,
        index.classes,
    )
}

// What is told of a run that is not sound.
fn turned_away() -> Ran
    ensures { result ≡ away }
{
    Ran {
        answer: Answer::Fault(fault::STATE),
        steps: 0,
        lines: 0,
    }
}

// What decides whether a row of a file is run.
fn check(file: &[u8]) -> Result<(), Refused>
    ensures { passed_of result ≡ check_file file.now }
{
    file_check::check(file)
}

// At most `limit` steps of the run whose file is s and whose row is w, with their lines written into the journal. A run that is
// not sound is left as it was, and so is the journal. The map is made once, for the test of soundness and for the steps.
pub fn run_row<'a>(s: &'a [u8], w: &'a mut [u64], limit: u32, journal: &'a mut [u8]) -> Ran
    ensures { TellsCall (call_row s.now (asked limit journal.old) w.old) result
        w.new journal.old journal.new }
{
    if check(s).is_err() {
        return turned_away();
    }
    let map = file_map::map_of(s);
    if !sound_of(s, &map.words, w) {
        return turned_away();
    }
    run_limit::run(s, &map.words, w, limit, journal)
}
