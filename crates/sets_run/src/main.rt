// Document 01's examples of sets, and sets at the edges of the numbers, run: a line for each, ok or not.
#![tactic(auto)]

use number_sets::{FragmentNumberSet, Listed, SequenceNumberSet};
use numbers::{
    Answer, Cursor, FragmentCursor, FragmentNumber, NextFragment, NextNumber, Refusal,
    SequenceNumber,
};
use std::io;

fn set(base: i64, count: u32, first: u32, last: u32) -> SequenceNumberSet {
    SequenceNumberSet {
        base: SequenceNumber(base),
        count,
        words: [first, 0, 0, 0, 0, 0, 0, last],
    }
}

fn fragments(base: u32, count: u32, first: u32, last: u32) -> FragmentNumberSet {
    FragmentNumberSet {
        base: FragmentNumber(base),
        count,
        words: [first, 0, 0, 0, 0, 0, 0, last],
    }
}

// What listing into a room of two gives, and what the room then holds. Once for each kind of set: they are two types, for the C interface.
fn list(s: SequenceNumberSet) -> (Listed, [u64; 2]) {
    let mut room = [7, 7];
    (s.list_members(&mut room), room)
}

fn list_fragments(s: FragmentNumberSet) -> (Listed, [u64; 2]) {
    let mut room = [7, 7];
    (s.list_members(&mut room), room)
}

// That it lists so many, the first of them in the room; and that it is refused, with the room as it was.
fn lists(count: usize, held: [u64; 2]) -> (Listed, [u64; 2]) {
    let answer = Answer::done();
    (Listed { answer, count }, held)
}

fn lists_none(by: Refusal) -> (Listed, [u64; 2]) {
    let answer = Answer::refused(by);
    (Listed { answer, count: 0 }, [7, 7])
}

// What the question from a cursor gives, and that it is a number with the cursor past it, or none.
fn next(s: SequenceNumberSet, from: u64) -> NextNumber {
    s.next_member(Cursor { from })
}

fn found(number: i64, past: u64) -> NextNumber {
    NextNumber {
        answer: Answer::done(),
        number: SequenceNumber(number),
        cursor: Cursor { from: past },
    }
}

fn no_number(by: Refusal) -> NextNumber {
    NextNumber {
        answer: Answer::refused(by),
        ..NextNumber::default()
    }
}

fn next_fragment(s: FragmentNumberSet, from: u64) -> NextFragment {
    s.next_member(FragmentCursor { from })
}

fn found_fragment(number: u32, past: u64) -> NextFragment {
    NextFragment {
        answer: Answer::done(),
        number: FragmentNumber(number),
        cursor: FragmentCursor { from: past },
    }
}

fn no_fragment(by: Refusal) -> NextFragment {
    NextFragment {
        answer: Answer::refused(by),
        ..NextFragment::default()
    }
}

// A set written for two numbers is listed as these; how many bits it has.
fn written(base: i64, numbers: [u64; 2], count: u32) -> bool {
    let made = SequenceNumberSet::of_numbers(SequenceNumber(base), &numbers);
    made.answer.is_done() && made.set.count == count && list(made.set) == lists(2, numbers)
}

fn not_written(base: i64, numbers: [u64; 2], by: Refusal) -> bool {
    let made = SequenceNumberSet::of_numbers(SequenceNumber(base), &numbers);
    made.answer == Answer::refused(by) && made.set.count == 0
}

// Numbers that join, a cut, and the size.
fn changed() -> bool {
    let all = set(10, 3, 0xA0000000, 1).joined(&[9, 300, 265, 12]);
    let some = all.cut(11, 264);
    all.count == 256 && all.size() == 3 && some.size() == 1 && list(some) == lists(1, [12, 7])
}

// Sets that are read.
fn read() -> [bool; 19] {
    let s1 = set(10, 3, 0xA0000000, 0xFFFFFFFF);
    let high = set(i64::MAX, 256, 0xC0000000, 1);
    let past = 1u64 << 63;
    let top = fragments(u32::MAX, 256, 0xC0000000, 0);
    [
        list(s1) == lists(2, [10, 12]),
        next(s1, 0) == found(10, 11),
        next(s1, 11) == found(12, 13),
        next(s1, 13) == no_number(Refusal::Nothing),
        list_fragments(fragments(10, 3, 0xA0000000, 1)) == lists(2, [10, 12]),
        // s3
        list(set(1, 256, 0x80000000, 1)) == lists(2, [1, 256]),
        list(set(1, 257, 0x80000000, 1)) == lists_none(Refusal::Bits),
        next(set(1, 257, 0x80000000, 1), 0) == no_number(Refusal::Bits),
        list_fragments(fragments(1, 257, 1, 1)) == lists_none(Refusal::Bits),
        // A base of 0, and one below it; 3 comes before 2.
        list(set(0, 2, 0xC0000000, 0)) == lists(2, [0, 1]),
        list(set(-1, 2, 0xC0000000, 0)) == lists_none(Refusal::Range),
        list(set(-1, 257, 0xC0000000, 0)) == lists_none(Refusal::Bits),
        // The last numbers, and past them.
        list(high) == lists(3, [past - 1, past]),
        next(high, 0) == found(i64::MAX, past),
        next(high, past) == no_number(Refusal::Nothing),
        high.size() == 3,
        list_fragments(top) == lists(2, [4294967295, 4294967296]),
        next_fragment(top, 0) == found_fragment(u32::MAX, 4294967296),
        next_fragment(top, 4294967296) == no_fragment(Refusal::Nothing),
    ]
}

// Sets that are made: the way back.
fn made() -> [bool; 6] {
    [
        written(10, [10, 265], 256),
        not_written(10, [12, 266], Refusal::Bits),
        not_written(10, [9, 12], Refusal::Range),
        not_written(10, [9, 300], Refusal::Bits),
        not_written(-1, [0, 1], Refusal::Range),
        changed(),
    ]
}

fn main(rt: HostRuntime) -> io::Result<()> {
    for ok in read().iter().chain(&made()) {
        rt.println(if *ok { "ok" } else { "not ok" })?;
    }
    Ok(())
}
