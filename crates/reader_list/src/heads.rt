// One slot of the list, and the frontier.
ghost use Rattle.std.specs.Prelude.{◌≡◌};
ghost use Rattle.reader_list.specs.Readers.{slot_coherent};
ghost use Rattle.reader_list.specs.Slots.{head_view, frontier_of, frontier_at};

use numbers::SequenceNumber;

// A slot, as C sees it. A free one is all zeros: its id is 0.
#[repr(C)]
#[derive(Clone, Copy)]
pub struct ReaderHead {
    pub id: u64,
    pub reliable: bool,
    pub acked: SequenceNumber,
}

// The acknowledgement frontier, as C sees it: absent, or a number.
#[repr(C)]
#[derive(Clone, Copy)]
pub struct AckedFrontier {
    pub present: bool,
    pub acked: SequenceNumber,
}

impl ReaderHead {
    // The most readers that a list has slots for.
    pub const MOST: usize = 64;

    // A free slot.
    pub const FREE: ReaderHead = ReaderHead {
        id: 0,
        reliable: false,
        acked: SequenceNumber(0),
    };

    // Whether it is a reader's, or all zeros.
    pub(crate) fn is_coherent(self) -> bool
        ensures { result ≡ slot_coherent (head_view self) }
    {
        let zero = (self.acked.rank() == 0) & !self.acked.is_negative();
        (self.id != 0) | (!self.reliable & zero)
    }
}

impl AckedFrontier {
    // Its natural number, raised to 1 at least; 0 stands for an absent one, as in the definition `frontier`, which may not change.
    pub fn rank(self) -> u64
        ensures { result ≡ frontier_of self }
    {
        if self.present {
            self.acked.rank().max(1)
        } else {
            0
        }
    }

    // The frontier of a natural number.
    pub fn from_rank(n: u64) -> AckedFrontier
        ensures { result ≡ frontier_at n }
    {
        AckedFrontier {
            present: n != 0,
            acked: SequenceNumber::from_rank(n),
        }
    }
}
