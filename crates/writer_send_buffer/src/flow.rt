// The flow record by value: what is coherent, and what a write is answered.
ghost use Rattle.std.specs.Prelude.{◌≡◌, cond, ◌-◌, ◌<◌, ◌^◌};
ghost use Rattle.numbers.specs.Number.{rank_of};
ghost use Rattle.numbers.specs.Refusals.{answer_of, is_done, done};
ghost use Rattle.writer_send_buffer.specs.Flow.{has_room, trims, full, trimmed, admit_rows, admitted};
ghost use Rattle.writer_send_buffer.specs.Buffer.{flow_view, flow_form, flow_coherent, ranged, new_flow_of};
ghost use Rattle.writer_send_buffer.specs.Buffer.{questioned, numbered_no, has_room_of, first_of, last_of};

use crate::limits::{Kind, Limits};
use numbers::{Answer, Refusal, SequenceNumber, Told};

// The flow record, as C sees it: so `present` stands beside `acked`, and no Option. The payloads stand in a lent store beside it.
#[repr(C)]
#[derive(Clone, Copy, Debug, Default, PartialEq, Eq)]
pub struct WriterSendBuffer {
    pub last: SequenceNumber,
    pub first: SequenceNumber,
    pub sent: SequenceNumber,
    pub acked: SequenceNumber,
    pub present: bool,
    pub kind: Kind,
    pub limits: Limits,
}

// An answer with a sequence number. As for all structs here that hold an answer beside what is answered: the C interface.
#[repr(C)]
#[derive(Clone, Copy, Default)]
pub struct Numbered {
    pub answer: Answer,
    pub number: SequenceNumber,
}

// An answer with the record as it then is.
#[repr(C)]
#[derive(Clone, Copy, Default)]
pub struct Moved {
    pub answer: Answer,
    pub flow: WriterSendBuffer,
}

// The record's numbers as natural numbers.
#[derive(Clone, Copy)]
pub(crate) struct Ranks {
    pub last: u64,
    pub first: u64,
    pub sent: u64,
    pub acked: u64,
}

impl WriterSendBuffer {
    // The record of the natural numbers given. A public method, with its seven parameters: what may not change.
    pub fn formed(
        last: u64,
        first: u64,
        sent: u64,
        acked: u64,
        present: bool,
        kind: Kind,
        limits: Limits,
    ) -> WriterSendBuffer
        ensures { result ≡ flow_form (record { last = last; first = first; sent = sent; acked = acked; present = present; kind = kind; limits = limits }) }
    {
        let n = Ranks {
            last,
            first,
            sent,
            acked,
        };
        let blank = WriterSendBuffer {
            present,
            kind,
            limits,
            ..WriterSendBuffer::default()
        };
        blank.with_ranks(n)
    }

    // The record with these numbers.
    pub(crate) fn with_ranks(self, n: Ranks) -> WriterSendBuffer
        ensures { result ≡ flow_form (record { last = n.last; first = n.first; sent = n.sent; acked = n.acked; present = self.present; kind = self.kind; limits = self.limits }) }
    {
        WriterSendBuffer {
            last: SequenceNumber::from_rank(n.last),
            first: SequenceNumber::from_rank(n.first),
            sent: SequenceNumber::from_rank(n.sent),
            acked: SequenceNumber::from_rank(n.acked),
            ..self
        }
    }

    pub(crate) fn ranks(self) -> Ranks
        ensures { (result ≡ record { last = rank_of self.last; first = rank_of self.first; sent = rank_of self.sent; acked = rank_of self.acked }) × (result.last < 2 ^ 63) }
    {
        Ranks {
            last: self.last.rank(),
            first: self.first.rank(),
            sent: self.sent.rank(),
            acked: self.acked.rank(),
        }
    }

    #[tactic(auto, using(crate::proofs::Between::between, sets::proofs::Bools::and_assoc))]
    pub fn is_coherent(self) -> bool
        ensures { result ≡ flow_coherent self }
    {
        let n = self.ranks();
        !self.last.is_negative()
            & !self.sent.is_negative()
            & (n.last <= SequenceNumber::LAST)
            & (1..=n.last + 1).contains(&n.first)
            & ((n.last + 1).saturating_sub(n.first) <= self.limits.slots)
            & (n.sent <= n.last)
            & (1..=n.last + 1).contains(&n.acked)
            & self.limits.are_allowed()
    }

    // The answer of a call that is refused where the record isn't coherent, or a number is out of its range.
    pub(crate) fn asked(self, range: bool) -> Answer
        ensures { result ≡ answer_of (ranged (flow_coherent self) range) }
    {
        Answer::done()
            .unless(range, Refusal::Range)
            .unless(!self.is_coherent(), Refusal::Incoherent)
    }

    // What the record is after a call: the next, or where the call is refused the same.
    pub(crate) fn unless_refused(self, answer: Answer, next: WriterSendBuffer) -> WriterSendBuffer
        ensures { result ≡ cond (is_done answer) next self }
    {
        if answer.is_done() { next } else { self }
    }

    // A new writer's record; where a limit isn't allowed, zeros.
    pub fn new(kind: Kind, limits: Limits) -> Moved
        ensures { result ≡ new_flow_of kind limits }
    {
        let limits = limits.with_0_as_1();
        let answer = Answer::done().unless(!limits.are_allowed(), Refusal::Limit);
        if !answer.is_done() {
            return Moved {
                answer,
                ..Moved::default()
            };
        }
        let flow = WriterSendBuffer {
            first: SequenceNumber(1),
            acked: SequenceNumber(1),
            kind,
            limits,
            ..WriterSendBuffer::default()
        };
        Moved { answer, flow }
    }

    // Whether one more sample finds room.
    fn room_for(self, opted: bool) -> bool
        ensures { result ≡ has_room (flow_view self) opted }
    {
        let n = self.ranks();
        let kind = self.kind;
        let unsent = n.last.saturating_sub(n.sent);
        let unacked = (n.last + 1).saturating_sub(n.acked);
        let in_window = !kind.reliable | !self.present | (unacked < self.limits.window);
        kind.builtin | !(kind.reliable | opted) | ((unsent < self.limits.backlog) & in_window)
    }

    // Whether a write trims what is held to `retain`.
    fn trims_for(self, opted: bool) -> bool
        ensures { result ≡ trims (flow_view self) opted }
    {
        let kind = self.kind;
        !kind.builtin & (!(kind.reliable | opted) | (kind.reliable & kind.volatile & !self.present))
    }

    // Whether a write finds all slots held, and trims none.
    fn full_for(self, opted: bool) -> bool
        ensures { result ≡ full (flow_view self) opted }
    {
        let n = self.ranks();
        let held = (n.last + 1).saturating_sub(n.first);
        !self.trims_for(opted) & (self.limits.slots <= held)
    }

    // What a write of `len` bytes is answered; `coherent` says whether the record and the lent store are.
    pub(crate) fn admission(self, coherent: bool, len: usize, opted: bool) -> Answer
        ensures { result ≡ answer_of (admit_rows coherent len (flow_view self) opted) }
    {
        let used_up = self.last.rank() == SequenceNumber::LAST;
        let too_long = (self.limits.slot_bytes as usize) < len;
        Answer::done()
            .unless(self.full_for(opted), Refusal::StoreFull)
            .unless(!self.room_for(opted), Refusal::WouldBlock)
            .unless(used_up, Refusal::UsedUp)
            .unless(too_long, Refusal::Payload)
            .unless(!coherent, Refusal::Incoherent)
    }

    // The oldest number retained once one more is in.
    fn first_after(self, opted: bool) -> u64
        ensures { result ≡ trimmed (flow_view self) opted }
    {
        let n = self.ranks();
        let kept = (n.last + 2).saturating_sub(self.limits.retain);
        if self.trims_for(opted) {
            n.first.max(kept)
        } else {
            n.first
        }
    }

    // The record once one more is in.
    pub(crate) fn after(self, opted: bool) -> WriterSendBuffer
        ensures { result ≡ flow_form (admitted (flow_view self) opted) }
    {
        let n = self.ranks();
        self.with_ranks(Ranks {
            last: n.last + 1,
            first: self.first_after(opted),
            ..n
        })
    }

    // Room for one more sample, as a question of its own.
    pub fn has_room(self, opted: bool) -> Told
        ensures { result ≡ has_room_of self opted }
    {
        let answer = self.asked(false);
        let yes = answer.is_done() & self.room_for(opted);
        Told { answer, yes }
    }

    // The oldest number retained; last + 1 where none is.
    pub fn first_change_sequence_number(self) -> Numbered
        ensures { result ≡ first_of self }
    {
        self.told_number(self.first)
    }

    // The newest number written; 0 where none is.
    pub fn last_change_sequence_number(self) -> Numbered
        ensures { result ≡ last_of self }
    {
        self.told_number(self.last)
    }

    // A question that a number answers.
    fn told_number(self, number: SequenceNumber) -> Numbered
        ensures { result ≡ questioned self numbered_no (record { answer = done; number = number }) }
    {
        let answer = self.asked(false);
        if answer.is_done() {
            Numbered { answer, number }
        } else {
            Numbered {
                answer,
                ..Numbered::default()
            }
        }
    }
}
