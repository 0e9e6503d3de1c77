// The number of a sample's fragment: unsigned, 32 bits, from 1 on.
ghost use Rattle.std.specs.Prelude.{◌≡◌, ltb};
ghost use Rattle.numbers.specs.Number.{is_fragment, fragment_at};

#[repr(C)]
#[derive(Clone, Copy, Debug, Default, PartialEq, Eq, PartialOrd, Ord, Hash)]
pub struct FragmentNumber(pub u32);

impl FragmentNumber {
    // The last fragment number that can be asked for.
    pub const LAST: u32 = 4096;

    // The same as a natural number, the first that can't, and how many 64-bit words hold a bit for each that can.
    pub const TOP: u64 = 4096;

    pub const PAST: u64 = 4097;

    pub const WORDS: usize = 64;

    // The natural number of a fragment number.
    pub fn rank(self) -> u64
        ensures { result ≡ self.0 }
    {
        u64::from(self.0)
    }

    // A total method and no TryFrom: what may not change, the definition `fragment_at`.
    // The fragment number of a natural number; of one that is too large, 0.
    pub fn from_rank(n: u64) -> FragmentNumber
        ensures { result ≡ fragment_at n }
    {
        FragmentNumber(u32::try_from(n).unwrap_or(0))
    }

    // Whether it can be asked for: 1 through 4,096.
    pub fn is_fragment(self) -> bool
        ensures { result ≡ is_fragment self }
    {
        (1..=FragmentNumber::LAST).contains(&self.0)
    }

    // The derived order is that of the numbers. A public method: what may not change.
    pub fn is_below(self, other: FragmentNumber) -> bool
        ensures { result ≡ ltb self.0 other.0 }
    {
        self < other
    }
}
