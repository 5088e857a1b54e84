// The refusals of document 01: why something is refused, by number, and what a refusal returns.
#![tactic(auto)]

ghost use Rattle.std.specs.Prelude.{◌≡◌};
ghost use Rattle.refusals.specs.Outcome.{number_of};

// Why something is refused: the table of document 01, by its numbers.
#[derive(Clone, Copy, PartialEq, Eq)]
pub enum Reason {
    PageLength = 1,
    Check = 2,
    Mark = 3,
    Counts = 4,
    Size = 5,
    ReadKeys = 6,
    ReadVersion = 7,
    WriteKeys = 8,
    WriteKind = 9,
    SpareByte = 10,
    BatchLength = 11,
    StateLength = 12,
    StateEntry = 13,
    LentTooShort = 14,
    TicketAgain = 15,
    KeyBeyondState = 16,
    PageIndex = 17,
    TextForm = 18,
    TextRange = 19,
    TextBuffer = 20,
}

// "Any refusal returns its number and a place."
#[derive(Clone, Copy, PartialEq, Eq)]
pub struct Refusal {
    pub reason: Reason,
    pub place: u32,
}

impl Reason {
    // The number that document 01 gives it.
    pub fn number(self) -> u32
        ensures { result ≡ number_of self }
    {
        self as u32
    }

    // The refusal for this reason at a place.
    pub fn at(self, place: u32) -> Refusal
        ensures { result ≡ record { reason = self; place = place } }
    {
        Refusal {
            reason: self,
            place,
        }
    }
}
