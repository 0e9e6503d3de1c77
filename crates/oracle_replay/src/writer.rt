// The calls on a writer: each is made, and what the buffer then shows is compared with what the crate showed.
ghost use Rattle.std.specs.Prelude.{◌≤◌};

use crate::block::Replayed;
use crate::line::{Numbers, is_so};
use numbers::{Answer, Refusal, SequenceNumber, Told};
use reader_list::AckedFrontier;
use writer_send_buffer::{Kind, Limits, WriterSendBuffer};

// A writer with its store: the part of each room that its limits say.
#[derive(Drop)]
pub(crate) struct Writer {
    pub flow: WriterSendBuffer,
    pub size: usize,
    pub slots: usize,
    pub store: [u8; 4096],
    pub lens: [u64; 256],
}

// The calls that the crate has; a payload as the line's numbers.
#[derive(Clone, Copy)]
enum Call<'a> {
    Write { opted: bool, payload: &'a [u64] },
    Acked(AckedFrontier),
    Sent(SequenceNumber),
    Evict(SequenceNumber),
}

impl<'a> Call<'a> {
    // The call that a line tells of; None where it is no writer's.
    fn told(line: &mut Numbers<'a>) -> Option<Call<'a>> {
        match line.next()? {
            11 => {
                let opted = line.next()? == 1;
                let len = line.next()? as usize;
                let payload = line.several(len)?;
                Some(Call::Write { opted, payload })
            }
            12 => {
                let present = line.next()? == 1;
                let acked = line.number()?;
                Some(Call::Acked(AckedFrontier { present, acked }))
            }
            13 => Some(Call::Sent(line.number()?)),
            14 => Some(Call::Evict(line.number()?)),
            _ => None,
        }
    }
}

impl Writer {
    // The writer that a block's first line tells of; None where its store is more than the rooms.
    pub(crate) fn told(head: &mut Numbers) -> Option<Writer> {
        let kind = Kind {
            reliable: head.next_or_0() == 1,
            builtin: head.next_or_0() == 1,
            volatile: head.next_or_0() == 1,
        };
        let limits = Limits {
            window: head.next_or_0(),
            backlog: head.next_or_0(),
            retain: head.next_or_0(),
            slots: head.next_or_0(),
            slot_bytes: head.next_or_0(),
        };
        let size = head.next_or_0() as usize;
        let slots = limits.slots as usize;
        is_so(size <= 4096 && slots <= 256)?;
        Some(Writer {
            flow: WriterSendBuffer::new(kind, limits).flow,
            size,
            slots,
            store: [0; 4096],
            lens: [0; 256],
        })
    }

    // The lengths of the store and of its lengths: as the limits say, which is no more than there is.
    pub(crate) fn size(&self) -> usize
        ensures { result ≤ 4096 }
    {
        self.size.min(4096)
    }

    pub(crate) fn slots(&self) -> usize
        ensures { result ≤ 256 }
    {
        self.slots.min(256)
    }

    // A write: what it is answered is the crate's number, or 0 where it would block.
    fn write(&mut self, opted: bool, payload: &[u64], line: &mut Numbers) -> Option<()> {
        let mut room = [0; 16];
        if room.len() < payload.len() {
            return None;
        }
        for (byte, told) in room.iter_mut().zip(payload) {
            *byte = (*told % 256) as u8;
        }
        // Two rooms behind `self` can't be lent at once.
        let mut lens = self.lens;
        let size = self.size();
        let slots = self.slots();
        let bytes = &room[..payload.len()];
        let r = self
            .flow
            .with_sample(&mut self.store[..size], &mut lens[..slots], bytes, opted);
        self.lens = lens;
        self.flow = r.flow;
        let number = line.next()?;
        let answer = Answer::done().unless(number == 0, Refusal::WouldBlock);
        is_so(r.numbered.answer == answer)?;
        is_so(r.numbered.number.rank() == number)?;
        line.expect(0)
    }

    // The call is made, and its answer is the line's: for a frontier or an eviction 0, and the crate's "wake". An eviction wakes nobody.
    fn make(&mut self, call: Call, line: &mut Numbers) -> Option<()> {
        let told = match call {
            Call::Write { opted, payload } => return self.write(opted, payload, line),
            Call::Acked(frontier) => self.flow.set_acked_frontier(frontier),
            Call::Sent(n) => self.flow.set_sent_frontier(n),
            Call::Evict(n) => Told {
                answer: self.flow.remove_changes_before(n),
                yes: false,
            },
        };
        is_so(told.answer.is_done())?;
        line.expect(0)?;
        line.expect(u64::from(told.yes))
    }
}

impl Replayed for Writer {
    fn replay(&mut self, line: &mut Numbers) -> Option<()> {
        let call = Call::told(line)?;
        self.make(call, line)?;
        self.is_shown(line)?;
        line.ends()
    }
}
