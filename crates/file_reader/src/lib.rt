// A reader of a model file: it stands at a record and moves on to the next. The functions over the struct are thin; what stands
// at a place of a slice is read by functions on slice and number.
#![tactic(auto)]

ghost use Rattle.std.specs.Prelude.{◌≡◌};
ghost use Rattle.file_reader.specs.Reads.{span_at, record_at, start, stands_at, moves_on};

// It stands at byte `at` of the file.
#[derive(Clone, Copy)]
pub struct Reader<'a> {
    pub src: &'a [u8],
    pub at: usize,
}

// What stands at a place: the kind of the record, and where the next one begins. Where no whole record stands, as at the end,
// the kind is 0, and the next place is the same.
#[derive(Clone, Copy)]
pub struct Record {
    pub whole: bool,
    pub kind: u32,
    pub next: usize,
}

// ---- on slice and number

// How many bytes the record at `at` has; 0 where no whole record stands there.
fn span_at(s: &[u8], at: usize) -> usize
    ensures { result ≡ span_at s.now at }
{
    if s.len() < 4 {
        return 0;
    }
    if s.len() - 4 < at {
        return 0;
    }
    let size = 2 + (file_fields::u16_at(s, at) as usize);
    if size < 4 {
        return 0;
    }
    if s.len() - at < size {
        return 0;
    }
    size
}

fn record_at(s: &[u8], at: usize) -> Record
    ensures { result ≡ record_at s.now at }
{
    let size = span_at(s, at);
    if size == 0 {
        return Record {
            whole: false,
            kind: 0,
            next: at,
        };
    }
    Record {
        whole: true,
        kind: file_fields::u16_at(s, at + 2),
        next: at + size,
    }
}

// ---- the reader

pub fn start<'a>(src: &'a [u8]) -> Reader<'a>
    ensures { result ≡ start src.entry }
{
    Reader { src, at: 0 }
}

pub fn stands_at<'a>(r: Reader<'a>) -> Record
    ensures { result ≡ stands_at r.entry }
{
    record_at(r.src, r.at)
}

// It stays where it is where no whole record stands.
pub fn moves_on<'a>(r: Reader<'a>) -> Reader<'a>
    ensures { result ≡ moves_on r.entry }
{
    Reader {
        src: r.src,
        at: stands_at(r).next,
    }
}

// ---- for callers with a slice and a place of their own

// What a reader reads that stands at byte `at` of s.
pub fn read(s: &[u8], at: usize) -> Record
    ensures { result ≡ record_at s.now at }
{
    stands_at(Reader { src: s, at })
}

// The byte at which a reader begins.
pub fn first(s: &[u8]) -> usize
    ensures { result ≡ (start s.entry).at }
{
    start(s).at
}

// The byte to which a reader moves on that stands at byte `at` of s.
pub fn next(s: &[u8], at: usize) -> usize
    ensures { result ≡ (record_at s.now at).next }
{
    moves_on(Reader { src: s, at }).at
}
