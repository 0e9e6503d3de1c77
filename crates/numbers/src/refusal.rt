// Why a call is refused: the numbers of document 01 but 0, by name.
ghost use Rattle.std.specs.Prelude.{◌≡◌, ℕ};
ghost use Rattle.numbers.specs.Refusal.{refusal_number};

#[derive(Clone, Copy, Debug, PartialEq, Eq)]
pub enum Refusal {
    // A record or buffer isn't coherent.
    Incoherent = 1,

    // A number is out of its range.
    Range = 2,

    // A set has more than 256 bits.
    Bits = 3,

    // The payload is longer than a slot.
    Payload = 4,

    // Sequence numbers are used up.
    UsedUp = 5,

    // The write would block.
    WouldBlock = 6,

    // The store is full.
    StoreFull = 7,

    // The reader list is full.
    ReadersFull = 8,

    // The gap set is full.
    GapsFull = 9,

    // The fragment slots are full.
    FragsFull = 10,

    // The reader id is 0, unknown, or already there.
    Reader = 11,

    // The acknowledgement's base is above last + 1: ignored.
    Ahead = 12,

    // A capacity or limit isn't allowed.
    Limit = 13,

    // Nothing is there: no sample, unsent number or fragment.
    Nothing = 14,

    // A trace line isn't understood.
    Line = 15,
}

// What has a number of document 01. No `Into<u32>`: the promise of `unless` needs the number as a function, and std's `from_gives` is a relation.
pub trait Numbered {
    ghost number: { Self → ℕ };

    fn number(self) -> u32
        ensures { result ≡ number self };
}

// A plain number too: `Answer::unless` took one, which may not change.
impl Numbered for u32 {
    ghost number = { λ n. n };

    fn number(self) -> u32 {
        self
    }
}

impl Numbered for Refusal {
    ghost number = { refusal_number };

    fn number(self) -> u32 {
        self as u32
    }
}
