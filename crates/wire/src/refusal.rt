// Why something was refused, and where.
ghost use Rattle.std.specs.Prelude.{◌≡◌};
ghost use Rattle.wire.specs.Refusal.{reason_number};

// Why something was refused; the number that document 01 gives back for it, and the C header has, stands beside each.
#[derive(Clone, Copy, PartialEq, Eq, Debug)]
pub enum Reason {
    // "cut short: an item doesn't fit in what is left"
    CutShort = 1,
    // "version not 1"
    BadVersion = 2,
    // "a bit or number not permitted"
    NotPermitted = 3,
    // "in the standard, not taken here"
    NotTaken = 4,
    // "bad length"
    BadLength = 5,
    // "counts, sizes or offsets disagree"
    Disagree = 6,
    // "bytes left over"
    LeftOver = 7,
    // "the configuration doesn't say"
    NotConfigured = 8,
    // "nested too deep"
    TooDeep = 9,
    // "over a limit"
    OverLimit = 10,
    // "no room in the lent buffer"
    NoRoom = 11,
    // "reassembly record unsound"
    Unsound = 12,
    // "chunk or partial of another message"
    OtherMessage = 13,
    // "a held byte differs"
    ByteDiffers = 14,
    // "not complete"
    NotComplete = 15,
    // "bad configuration line"
    BadLine = 16,
}

// A reason and its place: the first byte of the offending item.
#[derive(Clone, Copy, PartialEq, Eq, Debug)]
pub struct Refusal {
    pub reason: Reason,
    pub place: usize,
}

// What a reader answers: a value with the position after it, or a refusal.
pub type Read<T> = Result<(T, usize), Refusal>;

impl Reason {
    // The number of a reason.
    pub fn number(self) -> u8
        ensures { result ≡ reason_number self }
    {
        self as u8
    }

    // The refusal of what stands at a place.
    pub fn at(self, place: usize) -> Refusal
        ensures { result ≡ record { reason = self; place = place } }
    {
        Refusal {
            reason: self,
            place,
        }
    }
}
