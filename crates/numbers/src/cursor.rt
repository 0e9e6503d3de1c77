// A place in a rising set, by value: the next number is the smallest at or after it, and the cursor that comes back stands past that number.
// Sample numbers and fragments have types of their own, so that neither is taken for the other. They are two structs each and not one with a type
// parameter: the C interface, where what is exported may have none.
ghost use Rattle.std.specs.Prelude.{◌≡◌};
ghost use Rattle.numbers.specs.Cursor.{past, cursor_past, fragment_cursor_past, no_next_number, this_number, no_next_fragment, this_fragment};
ghost use Rattle.numbers.specs.Answers.{answered};

use crate::answer::Answer;
use crate::fragment_number::FragmentNumber;
use crate::sequence_number::SequenceNumber;

#[repr(C)]
#[derive(Clone, Copy, Debug, Default, PartialEq, Eq)]
pub struct Cursor {
    pub from: u64,
}

// The same among fragments.
#[repr(C)]
#[derive(Clone, Copy, Debug, Default, PartialEq, Eq)]
pub struct FragmentCursor {
    pub from: u64,
}

#[repr(C)]
#[derive(Clone, Copy, Debug, Default, PartialEq, Eq)]
pub struct NextNumber {
    pub answer: Answer,
    pub number: SequenceNumber,
    pub cursor: Cursor,
}

#[repr(C)]
#[derive(Clone, Copy, Debug, Default, PartialEq, Eq)]
pub struct NextFragment {
    pub answer: Answer,
    pub number: FragmentNumber,
    pub cursor: FragmentCursor,
}

// Past n. There is none past the largest 64-bit number.
fn past(n: u64) -> u64
    ensures { result ≡ past n }
{
    n.saturating_add(1)
}

impl Cursor {
    pub fn past(n: u64) -> Cursor
        ensures { result ≡ cursor_past n }
    {
        Cursor { from: past(n) }
    }
}

impl FragmentCursor {
    pub fn past(n: u64) -> FragmentCursor
        ensures { result ≡ fragment_cursor_past n }
    {
        FragmentCursor { from: past(n) }
    }
}

impl NextNumber {
    // The answer of a question for the next number that found n, or met a row; n is 0 where nothing is found. A C struct, so that the answer stands beside it.
    pub fn of(answer: Answer, n: u64) -> NextNumber
        ensures { result ≡ answered answer no_next_number (this_number n) }
    {
        if !answer.is_done() {
            return NextNumber {
                answer,
                ..NextNumber::default()
            };
        }
        NextNumber {
            answer: Answer::done(),
            number: SequenceNumber::from_rank(n),
            cursor: Cursor::past(n),
        }
    }
}

impl NextFragment {
    // The same for a fragment. What the two share is one `if`: a trait for it would be longer.
    pub fn of(answer: Answer, n: u64) -> NextFragment
        ensures { result ≡ answered answer no_next_fragment (this_fragment n) }
    {
        if !answer.is_done() {
            return NextFragment {
                answer,
                ..NextFragment::default()
            };
        }
        NextFragment {
            answer: Answer::done(),
            number: FragmentNumber::from_rank(n),
            cursor: FragmentCursor::past(n),
        }
    }
}
