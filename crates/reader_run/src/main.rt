// Document 01's examples of the reader record, and its edges, run: a line for each, ok or not.
#![tactic(auto)]

use number_sets::{FragmentNumberSet, SequenceNumberSet};
use numbers::{Answer, FragmentCursor, FragmentNumber, Refusal, SequenceNumber};
use rtps_reader_proxy::ReaderProxy;
use std::io;

fn reader(acked: i64, cap: usize, count: usize) -> ReaderProxy {
    ReaderProxy {
        all_acked_before: SequenceNumber(acked),
        unsent_cap: cap,
        unsent_count: count,
        ..ReaderProxy::default()
    }
}

fn asks(base: i64, count: u32, word: u32) -> SequenceNumberSet {
    SequenceNumberSet {
        base: SequenceNumber(base),
        count,
        words: [word, 0, 0, 0, 0, 0, 0, 0],
    }
}

fn pieces(base: u32, count: u32, word: u32) -> FragmentNumberSet {
    FragmentNumberSet {
        base: FragmentNumber(base),
        count,
        words: [word, 0, 0, 0, 0, 0, 0, 0],
    }
}

// What an ACKNACK leaves: the answer, A, how many are unsent, and the first three.
type Left = (Answer, i64, usize, [u64; 3]);

// From A 3 and unsent {4}, M 8, at last 5.
fn from_four(set: SequenceNumberSet) -> Left {
    let mut unsent = [4, 0, 0, 0, 0, 0, 0, 0];
    let mut gaps = [0u64; 256];
    let r = reader(3, 8, 1).handle_ack_nack(&mut unsent, &mut gaps, set, SequenceNumber(5));
    let [u, v, w, ..] = unsent;
    (
        r.answer,
        r.proxy.all_acked_before.0,
        r.proxy.unsent_count,
        [u, v, w],
    )
}

fn left(acked: i64, count: usize, unsent: [u64; 3]) -> Left {
    (Answer::done(), acked, count, unsent)
}

// A refused one leaves the reader as it was.
fn refused(by: Refusal) -> Left {
    (Answer::refused(by), 3, 1, [4, 0, 0])
}

// a5: fresh, last 0, base 0, empty: A 1.
fn fresh() -> bool {
    let mut unsent = [0u64; 8];
    let mut gaps = [0u64; 256];
    let r = reader(0, 8, 0).handle_ack_nack(
        &mut unsent,
        &mut gaps,
        asks(0, 0, 0),
        SequenceNumber(0),
    );
    r.proxy.all_acked_before == SequenceNumber(1)
}

// a6: M 2, A 1, unsent {1}, last 4, base 1, {2,3,4}: unsent {1,2}, left out 2.
fn cap_met() -> bool {
    let mut unsent = [1, 0];
    let mut gaps = [0u64; 256];
    let set = asks(1, 4, 0x70000000);
    let r = reader(1, 2, 1).handle_ack_nack(&mut unsent, &mut gaps, set, SequenceNumber(4));
    r.left_out == 2 && unsent == [1, 2]
}

// a7: M 2, unsent {1,2}, new 3: {2,3}.
fn newest_kept() -> bool {
    let mut unsent = [1, 2];
    let r = reader(0, 2, 2).notify_new_cache_change(&mut unsent, SequenceNumber(3));
    r.answer.is_done() && unsent == [2, 3]
}

// The answer to an ACKNACK with this many bits.
fn bits(count: u32) -> Answer {
    let mut unsent = [0u64; 8];
    let mut gaps = [0u64; 256];
    let set = asks(1, count, 0);
    let r = reader(0, 8, 0).handle_ack_nack(&mut unsent, &mut gaps, set, SequenceNumber(0));
    r.answer
}

// Two samples are asked for; which piece comes first, and which once that is marked sent: sample and fragment each.
fn piece_by_piece(asked: [(i64, FragmentNumberSet); 2]) -> [(i64, u32); 2] {
    let mut samples = [0u64; 16];
    let mut words = [0u64; 1024];
    let start = FragmentCursor { from: 1 };
    let mut p = reader(0, 8, 0);
    for (n, set) in asked {
        p = p
            .mark_frags_requested(&mut samples, &mut words, SequenceNumber(n), set)
            .proxy;
    }
    let one = p.next_frag_requested(&samples, &words, start);
    p = p
        .mark_frag_sent(&mut samples, &mut words, one.sample, one.fragment)
        .proxy;
    let two = p.next_frag_requested(&samples, &words, start);
    [
        (one.sample.0, one.fragment.0),
        (two.sample.0, two.fragment.0),
    ]
}

// f1: sample 9 asks 1 and 3, sample 7 asks 2: next 7/2; once that is marked sent, 9/1.
fn f1() -> bool {
    piece_by_piece([(9, pieces(1, 3, 0xA0000000)), (7, pieces(2, 1, 0x80000000))])
        == [(7, 2), (9, 1)]
}

// f2: sample 4 asks nothing, 9 asks 2: next 9/2.
fn f2() -> bool {
    piece_by_piece([(4, pieces(1, 0, 0)), (9, pieces(2, 1, 0x80000000))]) == [(9, 2), (0, 0)]
}

// f3: the answer to a request for one fragment.
fn f3(n: u32) -> Answer {
    let mut samples = [0u64; 16];
    let mut words = [0u64; 1024];
    let set = pieces(n, 1, 0x80000000);
    let r = reader(0, 8, 0).mark_frags_requested(&mut samples, &mut words, SequenceNumber(1), set);
    r.answer
}

fn cap(n: usize) -> Answer {
    ReaderProxy::new(n).answer
}

fn main(rt: HostRuntime) -> io::Result<()> {
    let done = Answer::done();
    let range = Answer::refused(Refusal::Range);
    let limit = Answer::refused(Refusal::Limit);
    let all = [
        from_four(asks(6, 0, 0)) == left(6, 0, [0, 0, 0]),
        from_four(asks(7, 0, 0)) == refused(Refusal::Ahead),
        from_four(asks(2, 5, 0xB8000000)) == left(3, 2, [4, 5, 0]),
        from_four(asks(3, 3, 0xA0000000)) == left(3, 3, [3, 4, 5]),
        from_four(asks(-1, 0, 0)) == refused(Refusal::Range),
        fresh(),
        cap_met(),
        newest_kept(),
        bits(256) == done,
        bits(257) == Answer::refused(Refusal::Bits),
        f1(),
        f2(),
        f3(4096) == done,
        f3(4097) == range,
        f3(0) == range,
        cap(0) == limit,
        cap(1) == done,
        cap(1024) == done,
        cap(1025) == limit,
    ];
    for ok in all {
        rt.println(if ok { "ok" } else { "not ok" })?;
    }
    Ok(())
}
