// The calls on a reader: each is made, and what the record then shows is compared with what the crate showed.
ghost use Rattle.std.specs.Prelude.{◌≤◌};

use crate::block::Replayed;
use crate::line::{Numbers, is_so};
use number_sets::{FragmentNumberSet, SequenceNumberSet};
use numbers::{Answer, FragmentNumber, Refusal, SequenceNumber};
use rtps_reader_proxy::ReaderProxy;
use rtps_reader_proxy::proxy::Changed;

// A reader with its rooms. The unsent room is as long as the cap.
#[derive(Drop)]
pub(crate) struct Reader {
    pub proxy: ReaderProxy,
    pub cap: usize,
    pub unsent: [u64; 1024],
    pub gaps: [u64; 256],
    pub samples: [u64; 16],
    pub words: [u64; 1024],
}

// The calls that the crate has.
#[derive(Clone, Copy)]
enum Call {
    AckNack {
        set: SequenceNumberSet,
        last: SequenceNumber,
    },
    NewChange(SequenceNumber),
    ChangeSent(SequenceNumber),
    RemoveBefore(SequenceNumber),
    Gap {
        n: SequenceNumber,
        last: SequenceNumber,
    },
    GapUpTo {
        n: SequenceNumber,
        last: SequenceNumber,
    },
    FragsRequested {
        n: SequenceNumber,
        set: FragmentNumberSet,
    },
    FragSent {
        n: SequenceNumber,
        fragment: FragmentNumber,
    },
}

impl Call {
    // The call that a line tells of; None where it is no reader's.
    fn told(line: &mut Numbers) -> Option<Call> {
        match line.next()? {
            1 => Call::ack_nack(line),
            2 => Some(Call::NewChange(line.number()?)),
            3 => Some(Call::ChangeSent(line.number()?)),
            4 => Some(Call::RemoveBefore(line.number()?)),
            5 => Some(Call::Gap {
                n: line.number()?,
                last: line.number()?,
            }),
            6 => Some(Call::GapUpTo {
                n: line.number()?,
                last: line.number()?,
            }),
            7 => Call::frags_requested(line),
            8 => Some(Call::FragSent {
                n: line.number()?,
                fragment: FragmentNumber(line.half()?),
            }),
            _ => None,
        }
    }

    fn ack_nack(line: &mut Numbers) -> Option<Call> {
        let set = SequenceNumberSet {
            base: line.number()?,
            count: line.half()?,
            words: line.words()?,
        };
        let last = line.number()?;
        Some(Call::AckNack { set, last })
    }

    fn frags_requested(line: &mut Numbers) -> Option<Call> {
        let n = line.number()?;
        let set = FragmentNumberSet {
            base: FragmentNumber(line.half()?),
            count: line.half()?,
            words: line.words()?,
        };
        Some(Call::FragsRequested { n, set })
    }
}

impl Reader {
    // The reader that a block's first line tells of; None where its cap is more than the room.
    pub(crate) fn told(head: &mut Numbers) -> Option<Reader> {
        let cap = head.next_or_0() as usize;
        is_so(cap <= 1024)?;
        Some(Reader {
            proxy: ReaderProxy::new(cap).proxy,
            cap,
            unsent: [0; 1024],
            gaps: [0; 256],
            samples: [0; 16],
            words: [0; 1024],
        })
    }

    // The length of the unsent room: the cap, which is no more than there is. (A ghost field would say so, but a field of a struct with one can't be lent by `&mut`.)
    pub(crate) fn room(&self) -> usize
        ensures { result ≤ 1024 }
    {
        self.cap.min(1024)
    }

    // An ACKNACK, which the crate ignores where its base is above last + 1.
    fn ack(&mut self, set: SequenceNumberSet, last: SequenceNumber) -> Option<()> {
        let ahead = last.rank() + 1 < set.base.rank();
        let room = self.room();
        // Two rooms behind `self` can't be lent at once.
        let mut gaps = self.gaps;
        let r = self
            .proxy
            .handle_ack_nack(&mut self.unsent[..room], &mut gaps, set, last);
        self.gaps = gaps;
        self.proxy = r.proxy;
        is_so(r.answer == Answer::done().unless(ahead, Refusal::Ahead))?;
        is_so(r.left_out == 0)
    }

    // Any other call. The crate's functions give no answer here; inside the compared range the library's is 0.
    fn changed(&mut self, call: Call) -> Option<Changed> {
        let proxy = self.proxy;
        let room = self.room();
        let mut samples = self.samples;
        let r = match call {
            Call::AckNack { .. } => return None,
            Call::NewChange(n) => proxy.notify_new_cache_change(&mut self.unsent[..room], n),
            Call::ChangeSent(n) => proxy.mark_change_sent(&mut self.unsent[..room], n),
            Call::RemoveBefore(n) => {
                proxy.remove_from_unsent_set_all_before(&mut self.unsent[..room], n)
            }
            Call::Gap { n, last } => proxy.insert_pending_gap(&mut self.gaps, n, last),
            Call::GapUpTo { n, last } => proxy.set_pending_gap_up_to(&mut self.gaps, n, last),
            Call::FragsRequested { n, set } => {
                proxy.mark_frags_requested(&mut samples, &mut self.words, n, set)
            }
            Call::FragSent { n, fragment } => {
                proxy.mark_frag_sent(&mut samples, &mut self.words, n, fragment)
            }
        };
        self.samples = samples;
        Some(r)
    }

    fn make(&mut self, call: Call) -> Option<()> {
        if let Call::AckNack { set, last } = call {
            return self.ack(set, last);
        }
        let r = self.changed(call)?;
        self.proxy = r.proxy;
        is_so(r.answer.is_done())
    }
}

impl Replayed for Reader {
    fn replay(&mut self, line: &mut Numbers) -> Option<()> {
        let call = Call::told(line)?;
        self.make(call)?;
        self.is_shown(line)?;
        line.ends()
    }
}
