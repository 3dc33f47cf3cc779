ghost use Rattle.std.specs.Prelude.{◌≡◌};
ghost use Rattle.swap.specs.Faults.{number_of, layer_of};

// Why a call is refused. Each reason has a number of its own.
#[derive(Clone, Copy, PartialEq, Eq, Debug)]
pub enum Reason {
    SwapHeld = 1,
    FileSize = 2,
    UnknownKind = 3,
    CutShort = 4,
    OutOfOrder = 5,
    BadField = 6,
    TooMany = 7,
    HeldTwice = 8,
    Missing = 9,
    NotCovered = 10,
    NotConnected = 11,
    NoLeader = 12,
    NotRunning = 13,
    NotOutsider = 14,
    JournalFull = 15,
    BadRequest = 16,
}

impl Reason {
    // The refusal for this reason, at a place.
    pub fn at(self, place: usize) -> Fault
        ensures reason { result.reason ≡ self }
        ensures place { result.place ≡ place }
    {
        Fault {
            reason: self,
            place,
        }
    }
}

// Which part of the engine refuses.
#[derive(Clone, Copy, PartialEq, Eq, Debug)]
pub enum Layer {
    File,
    Plan,
    Run,
}

// A refusal: the reason, and the place in the file, the leg, the party or the tick that it speaks of.
// The place is a number also where there is none: the rules tell 0 then.
#[derive(Clone, Copy, PartialEq, Eq, Debug)]
pub struct Fault {
    pub reason: Reason,
    pub place: usize,
}

impl Fault {
    pub fn number(&self) -> u8
        ensures { result ≡ number_of self.now.reason }
    {
        self.reason as u8
    }

    // By the ranges of numbers that the rules name.
    pub fn layer(&self) -> Layer
        ensures { result ≡ layer_of (number_of self.now.reason) }
    {
        match self.number() {
            0..=9 => Layer::File,
            10..=12 => Layer::Plan,
            _ => Layer::Run,
        }
    }
}
