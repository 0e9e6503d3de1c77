// The numbers returned, and the one place that puts them in order.
ghost use Rattle.std.specs.Prelude.{◌≡◌, refl, cond, not, [], ◌∷◌, eqb};
ghost use Rattle.numbers.specs.Refusal.{refusal_number};
ghost use Rattle.numbers.specs.Refusals.{row, answer_at, answer_of, done};

use crate::refusal::{Numbered, Refusal};

// A call's answer, as C sees it: 0, or the number of the first row that holds; and the place that it is about, where a number has one. None has today.
#[repr(C)]
#[derive(Clone, Copy, Debug, Default, PartialEq, Eq)]
pub struct Answer {
    pub number: u32,
    pub place: u32,
}

// A yes or no, as C sees it.
#[repr(C)]
#[derive(Clone, Copy, Debug, PartialEq, Eq)]
pub struct Told {
    pub answer: Answer,
    pub yes: bool,
}

impl Answer {
    // The order in which they apply.
    pub const ORDER: [Refusal; 14] = [
        Refusal::Limit,
        Refusal::Incoherent,
        Refusal::Bits,
        Refusal::Range,
        Refusal::Reader,
        Refusal::Ahead,
        Refusal::Payload,
        Refusal::UsedUp,
        Refusal::WouldBlock,
        Refusal::StoreFull,
        Refusal::ReadersFull,
        Refusal::GapsFull,
        Refusal::FragsFull,
        Refusal::Nothing,
    ];

    // The one place where an answer is made.
    fn at(number: u32) -> Answer
        ensures { result ≡ answer_at number }
    {
        Answer { number, place: 0 }
    }

    // The answer of a call that is refused so, whatever else holds.
    pub fn refused(by: Refusal) -> Answer
        ensures { result ≡ answer_at (refusal_number by) }
    {
        Answer::at(by.number())
    }

    // The answer of a call that no row refuses.
    pub fn done() -> Answer
        ensures { result ≡ done }
    {
        Answer::at(0)
    }

    // This answer, unless a row that comes before it holds. A call's rows are so given from the last to the first, as the table
    // has them: in another order, or with a number that isn't the row's, no caller meets its contract.
    pub fn unless<N: Numbered>(self, holds: bool, number: N) -> Answer
        ensures { result ≡ answer_at (cond holds (N.number number) self.number) }
    {
        let refused = number.number();
        Answer::at(if holds { refused } else { self.number })
    }

    // The answer of a call that only what isn't coherent refuses.
    pub fn coherence(coherent: bool) -> Answer
        ensures { result ≡ answer_of (row 1 refl (not coherent) ∷ []) }
    {
        Answer::done().unless(!coherent, Refusal::Incoherent)
    }

    // The answer of a question that finds something or nothing.
    pub fn found(coherent: bool, none: bool) -> Answer
        ensures { result ≡ answer_of (row 1 refl (not coherent) ∷ row 14 refl none ∷ []) }
    {
        Answer::done()
            .unless(none, Refusal::Nothing)
            .unless(!coherent, Refusal::Incoherent)
    }

    // The answer to a trace line that isn't understood: no call's, and in no order with theirs.
    pub fn not_understood() -> Answer
        ensures { result ≡ answer_at 15 }
    {
        Answer::refused(Refusal::Line)
    }

    // Whether the call was done and not refused.
    pub fn is_done(self) -> bool
        ensures { result ≡ eqb self.number 0 }
    {
        self.number == 0
    }
}
