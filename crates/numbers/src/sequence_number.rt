// The number of a sample: signed, 64 bits.
ghost use Rattle.std.specs.Prelude.{◌≡◌};
ghost use Rattle.std.specs.Int.Signed.{lt_z};
ghost use Rattle.numbers.specs.Number.{Ranked, in_range, is_sample, number_at, negative, past_bits};

#[repr(C)]
#[derive(Clone, Copy, Debug, Default, PartialEq, Eq, PartialOrd, Ord, Hash)]
pub struct SequenceNumber(pub i64);

impl SequenceNumber {
    // The last number that a written sample can have, 2 ^ 63 - 2.
    pub const LAST: u64 = 9223372036854775806;

    // The largest of all, 2 ^ 63 - 1: all before it may be acknowledged.
    pub const LARGEST: u64 = 9223372036854775807;

    // `rank` and `from_rank` are total methods and no From and TryFrom: what may not change, the definitions `Ranked` and `number_at`.
    // The natural number of a sequence number; 0 stands for all that are below 1. By `max`, since a range is then one comparison (`try_from` takes
    // three to eight instructions more, in each check of a record).
    pub fn rank(self) -> u64
        ensures { Ranked self result }
    {
        self.0.max(0) as u64
    }

    // The sequence number of a natural number; of one that is too large, 0.
    pub fn from_rank(n: u64) -> SequenceNumber
        ensures { result ≡ number_at n }
    {
        SequenceNumber(i64::try_from(n).unwrap_or(0))
    }

    pub fn is_negative(self) -> bool
        ensures { result ≡ negative self }
    {
        self.0 < 0
    }

    // Whether it is 0 through top.
    pub fn within(self, top: u64) -> bool
        ensures { result ≡ in_range self top }
    {
        !self.is_negative() & (self.rank() <= top)
    }

    // Whether a written sample can have it: 1 through 2 ^ 63 - 2.
    pub fn is_sample(self) -> bool
        ensures { result ≡ is_sample self }
    {
        (1..=SequenceNumber::LAST).contains(&self.rank())
    }

    // The comparison of the signed numbers themselves: what the derived order is. A public method: what may not change.
    pub fn is_below(self, other: SequenceNumber) -> bool
        ensures { result ≡ lt_z self.0 other.0 }
    {
        self < other
    }

    // The first natural number past the 256 bits of a set that starts here; where that is below 0, 0.
    pub fn past_bits(self) -> u64
        ensures { result ≡ past_bits self }
    {
        if self.is_negative() {
            SequenceNumber(self.0 + 256).rank()
        } else {
            self.rank() + 256
        }
    }
}
