// Why a text is refused, and where.
ghost use Rattle.std.specs.Prelude.{◌≡◌};
ghost use Rattle.text_reader.specs.Reason.{number_of, reason_of};

use text_names::Trouble;

// The numbers that they are told by.
const GRAMMAR: u32 = 51;

const UNKNOWN: u32 = 52;

const AGAIN: u32 = 53;

const CHECKS: u32 = 54;

const BUFFER: u32 = 55;

// A token that doesn't fit; a name that isn't known or doesn't fit; one that is taken; what the checks of a file would refuse; and
// records for which there is no room.
#[derive(Clone, Copy, Debug, PartialEq, Eq)]
pub enum Reason {
    Grammar,
    Unknown,
    Again,
    Checks,
    Buffer,
}

impl Reason {
    // Its number.
    pub fn number(self) -> u32
        ensures { result ≡ number_of self }
    {
        match self {
            Reason::Grammar => GRAMMAR,
            Reason::Unknown => UNKNOWN,
            Reason::Again => AGAIN,
            Reason::Checks => CHECKS,
            Reason::Buffer => BUFFER,
        }
    }
}

impl From<Trouble> for Reason {
    ghost from_gives = { λ t r. r ≡ reason_of t };

    fn from(trouble: Trouble) -> Reason {
        match trouble {
            Trouble::Unknown => Reason::Unknown,
            Trouble::Again => Reason::Again,
        }
    }
}

// A refusal.
#[derive(Clone, Copy, Debug, PartialEq, Eq)]
pub struct Refused {
    pub reason: Reason,
    pub place: usize,
}
