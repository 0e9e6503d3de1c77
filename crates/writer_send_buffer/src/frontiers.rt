// The frontiers and eviction, by value.
ghost use Rattle.std.specs.Prelude.{◌≡◌};
ghost use Rattle.writer_send_buffer.specs.Flow.{wakes, stored};
ghost use Rattle.writer_send_buffer.specs.Buffer.{flow_view, flow_form, acked_of, sent_of, evict_of, through_of, woken, moved};

use crate::flow::{Moved, Ranks, WriterSendBuffer};
use numbers::{SequenceNumber, Told};
use reader_list::AckedFrontier;

// Whether to wake who waits, with the record as it then is.
#[repr(C)]
#[derive(Clone, Copy)]
pub struct Woken {
    pub told: Told,
    pub flow: WriterSendBuffer,
}

impl WriterSendBuffer {
    // Whether a frontier wakes who waits; 0 stands for an absent one, as in the definitions that the theorem about both ends cites.
    fn frontier_wakes(self, a: u64) -> bool
        ensures { result ≡ wakes a (flow_view self) }
    {
        if a == 0 {
            self.present
        } else {
            !self.present | (self.acked.rank() < a)
        }
    }

    // The record with the frontier stored; an absent one leaves the number that stood.
    fn frontier_stored(self, a: u64) -> WriterSendBuffer
        ensures { result ≡ flow_form (stored a (flow_view self)) }
    {
        let n = self.ranks();
        let acked = if a == 0 { n.acked } else { a };
        WriterSendBuffer {
            present: a != 0,
            ..self.with_ranks(Ranks { acked, ..n })
        }
    }

    // The acknowledgement frontier stored: it may lower.
    pub fn with_acked_frontier(self, frontier: AckedFrontier) -> Woken
        ensures { result ≡ woken (acked_of self frontier) }
    {
        let a = frontier.rank();
        let answer = self.asked(self.last.rank() + 1 < a);
        let yes = answer.is_done() & self.frontier_wakes(a);
        Woken {
            told: Told { answer, yes },
            flow: self.unless_refused(answer, self.frontier_stored(a)),
        }
    }

    // The sent frontier raised.
    pub fn with_sent_frontier(self, number: SequenceNumber) -> Woken
        ensures { result ≡ woken (sent_of self number) }
    {
        let k = number.rank();
        let n = self.ranks();
        let answer = self.asked(n.last < k);
        let yes = answer.is_done() & (n.sent < k);
        let next = self.with_ranks(Ranks {
            sent: n.sent.max(k),
            ..n
        });
        Woken {
            told: Told { answer, yes },
            flow: self.unless_refused(answer, next),
        }
    }

    // What is retained below the number goes.
    pub fn with_changes_removed(self, before: SequenceNumber) -> Moved
        ensures { result ≡ moved (evict_of self before) }
    {
        let k = before.rank();
        let n = self.ranks();
        let answer = self.asked(n.last + 1 < k);
        let next = self.with_ranks(Ranks {
            first: n.first.max(k),
            ..n
        });
        Moved {
            answer,
            flow: self.unless_refused(answer, next),
        }
    }

    // Whether every reliable reader has all through the number.
    pub fn is_acked_through(self, number: SequenceNumber) -> Told
        ensures { result ≡ through_of self number }
    {
        let answer = self.asked(false);
        let through = !self.present | (number.rank() < self.acked.rank());
        Told {
            answer,
            yes: answer.is_done() & through,
        }
    }
}
