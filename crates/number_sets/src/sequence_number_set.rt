// A set of sequence numbers as RTPS writes it: a base, a bit count 0 to 256, and eight words of 32 bits, the first bit highest.
ghost use Rattle.std.specs.Prelude.{◌≡◌, length};
ghost use Rattle.numbers.specs.Promise.{Gives1};
ghost use Rattle.numbers.specs.Refusals.{answer_of};
ghost use Rattle.numbers.specs.Cursor.{or_none};
ghost use Rattle.number_sets.specs.Bits.{members};
ghost use Rattle.number_sets.specs.Calls.{sequence_set, sequence_rows, members_listed, next_rank, next_member, cut_set, joined_set, empty_at, of_numbers};

use crate::number_set::{NumberSet, any_below, any_from, set_answer};
use numbers::{Answer, Cursor, NextNumber, SequenceNumber};

#[repr(C)]
#[derive(Clone, Copy, Debug, PartialEq, Eq)]
pub struct SequenceNumberSet {
    pub base: SequenceNumber,
    pub count: u32,
    pub words: [u32; 8],
}

// How many members there are, as C sees it.
#[repr(C)]
#[derive(Clone, Copy, Debug, PartialEq, Eq)]
pub struct Listed {
    pub answer: Answer,
    pub count: usize,
}

// A set made for given numbers, as C sees it.
#[repr(C)]
#[derive(Clone, Copy, Debug, PartialEq, Eq)]
pub struct WrittenNumbers {
    pub answer: Answer,
    pub set: SequenceNumberSet,
}

impl SequenceNumberSet {
    // The most bits of a set, and so the most members.
    pub const MOST_BITS: u32 = 256;

    pub const MOST_MEMBERS: usize = 256;

    // A set with no member.
    pub fn empty(base: SequenceNumber) -> SequenceNumberSet
        ensures { result ≡ empty_at base }
    {
        SequenceNumberSet {
            base,
            count: 0,
            words: [0; 8],
        }
    }

    // The same set in natural numbers.
    fn natural(self) -> NumberSet
        ensures { result ≡ sequence_set self }
    {
        let SequenceNumberSet { base, count, words } = self;
        NumberSet {
            base: base.rank(),
            count,
            words,
        }
    }

    // The answer of a call on the set that found something, or nothing.
    fn check(self, none: bool) -> Answer
        ensures { result ≡ answer_of (or_none (sequence_rows self) none) }
    {
        set_answer(
            SequenceNumberSet::MOST_BITS < self.count,
            self.base.is_negative(),
            none,
        )
    }

    // The members, rising, as far as the room holds them; how many they are in all.
    pub fn list_members(self, out: &mut [u64]) -> Listed
        ensures { Gives1 result out.new (members_listed (sequence_rows self) (members (sequence_set self)) out.old) }
    {
        self.natural().list_members(self.check(false), out)
    }

    // The smallest member from `from` through `top`, whatever these are.
    pub fn next_rank(self, from: u64, top: u64) -> Option<u64>
        ensures { result ≡ next_rank (sequence_set self) from top }
    {
        self.natural().next_rank(from, top)
    }

    // The smallest member at or after the cursor, and the cursor past it.
    pub fn next_member(self, at: Cursor) -> NextNumber
        ensures { result ≡ next_member self at }
    {
        let next = self.next_rank(at.from, SequenceNumber::LARGEST);
        NextNumber::of(self.check(next.is_none()), next.unwrap_or(0))
    }

    // How many members there are.
    pub fn size(self) -> usize
        ensures { result ≡ length (members (sequence_set self)) }
    {
        self.natural().size()
    }

    // The same set with the members from lo through hi alone.
    pub fn cut(self, lo: u64, hi: u64) -> SequenceNumberSet
        ensures { result ≡ cut_set self lo hi }
    {
        let words = self.natural().cut(lo, hi);
        SequenceNumberSet { words, ..self }
    }

    // The set with, besides its members, those of the numbers that it can have: from the base to base + 255.
    pub fn joined(self, numbers: &[u64]) -> SequenceNumberSet
        ensures { result ≡ joined_set self numbers.now }
    {
        let NumberSet { count, words, .. } = self.natural().joined(numbers);
        SequenceNumberSet {
            count,
            words,
            ..self
        }
    }

    // The set of the given numbers.
    pub fn of_numbers(base: SequenceNumber, numbers: &[u64]) -> WrittenNumbers
        ensures { result ≡ of_numbers base numbers.now }
    {
        let below = any_below(base.rank(), numbers);
        let above = any_from(base.past_bits(), numbers);
        let answer = set_answer(above, base.is_negative() | below, false);
        if !answer.is_done() {
            return WrittenNumbers {
                answer,
                set: SequenceNumberSet::empty(SequenceNumber(0)),
            };
        }
        WrittenNumbers {
            answer,
            set: SequenceNumberSet::empty(base).joined(numbers),
        }
    }
}
