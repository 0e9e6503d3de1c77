// A set of fragment numbers as RTPS writes it.
ghost use Rattle.std.specs.Prelude.{◌≡◌, not, leb, length};
ghost use Rattle.sets.specs.Sets.{only, empty};
ghost use Rattle.numbers.specs.Promise.{Gives1};
ghost use Rattle.numbers.specs.Refusals.{answer_of};
ghost use Rattle.numbers.specs.Cursor.{or_none};
ghost use Rattle.number_sets.specs.Bits.{members};
ghost use Rattle.number_sets.specs.Calls.{fragment_set, fragment_rows, members_listed, next_rank, next_fragment_member, of_fragments, empty_fragments};

use crate::number_set::{NumberSet, any_below, any_from, set_answer};
use crate::sequence_number_set::{Listed, SequenceNumberSet};
use numbers::{Answer, FragmentCursor, FragmentNumber, NextFragment};

#[repr(C)]
#[derive(Clone, Copy, Debug, PartialEq, Eq)]
pub struct FragmentNumberSet {
    pub base: FragmentNumber,
    pub count: u32,
    pub words: [u32; 8],
}

// A set made for given numbers, as C sees it.
#[repr(C)]
#[derive(Clone, Copy, Debug, PartialEq, Eq)]
pub struct WrittenFragments {
    pub answer: Answer,
    pub set: FragmentNumberSet,
}

impl FragmentNumberSet {
    // A set with no member.
    fn empty(base: FragmentNumber) -> FragmentNumberSet
        ensures { result ≡ empty_fragments base }
    {
        FragmentNumberSet {
            base,
            count: 0,
            words: [0; 8],
        }
    }

    // The same set in natural numbers.
    fn natural(self) -> NumberSet
        ensures { result ≡ fragment_set self }
    {
        let FragmentNumberSet { base, count, words } = self;
        NumberSet {
            base: base.rank(),
            count,
            words,
        }
    }

    // The answer of a call on the set that found something, or nothing: no base is out of its range.
    fn check(self, none: bool) -> Answer
        ensures { result ≡ answer_of (or_none (fragment_rows self) none) }
    {
        set_answer(SequenceNumberSet::MOST_BITS < self.count, false, none)
    }

    // The members, rising, as far as the room holds them; how many they are in all.
    pub fn list_members(self, out: &mut [u64]) -> Listed
        ensures { Gives1 result out.new (members_listed (fragment_rows self) (members (fragment_set self)) out.old) }
    {
        self.natural().list_members(self.check(false), out)
    }

    // The smallest member from `from` through `top`, whatever these are.
    pub fn next_rank(self, from: u64, top: u64) -> Option<u64>
        ensures { result ≡ next_rank (fragment_set self) from top }
    {
        self.natural().next_rank(from, top)
    }

    // The smallest member at or after the cursor, and the cursor past it.
    pub fn next_member(self, at: FragmentCursor) -> NextFragment
        ensures { result ≡ next_fragment_member self at }
    {
        let next = self.next_rank(at.from, u64::from(u32::MAX));
        NextFragment::of(self.check(next.is_none()), next.unwrap_or(0))
    }

    // Whether any member is n or more.
    pub fn reaches(self, n: u64) -> bool
        ensures { result ≡ not (empty (only (leb n) (members (fragment_set self)))) }
    {
        // No member is as large as this.
        let end = self.base.rank() + u64::from(self.count);
        self.next_rank(n, end).is_some()
    }

    // How many members there are.
    pub fn size(self) -> usize
        ensures { result ≡ length (members (fragment_set self)) }
    {
        self.natural().size()
    }

    // The set of the given numbers.
    pub fn of_numbers(base: FragmentNumber, numbers: &[u64]) -> WrittenFragments
        ensures { result ≡ of_fragments base numbers.now }
    {
        let first = base.rank();
        let end = first + u64::from(SequenceNumberSet::MOST_BITS);
        let answer = set_answer(any_from(end, numbers), any_below(first, numbers), false);
        if !answer.is_done() {
            return WrittenFragments {
                answer,
                set: FragmentNumberSet::empty(FragmentNumber(0)),
            };
        }
        let NumberSet { count, words, .. } = FragmentNumberSet::empty(base)
            .natural()
            .joined(numbers);
        WrittenFragments {
            answer,
            set: FragmentNumberSet { base, count, words },
        }
    }
}
