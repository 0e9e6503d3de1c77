// The retained samples: a lent store of `slots` times `slot_bytes` bytes, and a lent room of `slots` lengths. C lends each by itself, so they stay parameters.
ghost use Rattle.std.specs.Prelude.{◌≡◌, ◌*◌, length, set};
ghost use Rattle.numbers.specs.Refusals.{answer_of};
ghost use Rattle.numbers.specs.Promise.{Gives2};
ghost use Rattle.writer_send_buffer.specs.Buffer.{flow_view};
ghost use Rattle.writer_send_buffer.specs.Samples.{SlotRun, Slot, with_bytes, lengths_fit, store_coherent, write_rows, admit_of, handed, has_place, located_of, locate_of, part_of, fetched_view, fetch_of};

use crate::at_most::all_at_most;
use crate::flow::{Numbered, WriterSendBuffer};
use crate::limits::Limits;
use numbers::{Answer, Refusal, SequenceNumber};

// What a write is answered, with the record as it then is.
#[repr(C)]
#[derive(Clone, Copy)]
pub struct Admitted {
    pub numbered: Numbered,
    pub flow: WriterSendBuffer,
}

// Where a sample lies in the store. A start and a length, where a slice would say it: the C interface, which can return no slice.
#[repr(C)]
#[derive(Clone, Copy, Default)]
pub struct Located {
    pub answer: Answer,
    pub start: usize,
    pub length: usize,
}

// What a fetch is answered, with the bytes of the sample as a part of the lent store; none where the answer isn't 0. README tells an empty sample from one that is gone by it.
#[derive(Clone, Copy)]
pub struct Fetched<'a> {
    pub answer: Answer,
    pub bytes: &'a [u8],
}

// Whether the lengths of `count` samples, the first of them in the slot of `from`, are at most `most`. They stand in all of the ring, in one part of it, or
// in two: up to its end, and from its start.
fn lengths_fit(lens: &[u64], from: u64, count: u64, most: u64) -> bool
    requires { SlotRun lens.now count }
    ensures { result ≡ lengths_fit lens.now (length lens.now) most from count }
{
    let held = count as usize;
    if held == lens.len() {
        return all_at_most(lens, most);
    }
    let first = (from % (lens.len() as u64)) as usize;
    let (front, back) = lens.split_at(first);
    if held <= back.len() {
        return all_at_most(&back[..held], most);
    }
    all_at_most(back, most) & all_at_most(&front[..held - back.len()], most)
}

// The payload is copied into a slot: the only copy.
fn put_in(store: &mut [u8], lens: &mut [u64], payload: &[u8], slot: usize, bytes: usize)
    requires { Slot store.old lens.old payload.now slot bytes }
    ensures { (store.new ≡ with_bytes store.old (slot * bytes) payload.now) × (lens.new ≡ set lens.old slot (length payload.now)) }
{
    let start = slot * bytes;
    store[start..start + payload.len()].copy_from_slice(payload);
    lens[slot] = payload.len() as u64;
}

impl WriterSendBuffer {
    // Whether the record, a store of `room` bytes and the lengths are coherent.
    pub fn is_coherent_store(self, room: usize, lens: &[u64]) -> bool
        ensures { result ≡ store_coherent self room lens.now }
    {
        let slots = self.limits.slots as usize;
        let bytes = self.limits.slot_bytes as usize;
        if !self.is_coherent() {
            return false;
        }
        if lens.len() != slots || room != slots * bytes {
            return false;
        }
        let n = self.ranks();
        let count = (n.last + 1).saturating_sub(n.first);
        lengths_fit(lens, n.first - 1, count, self.limits.slot_bytes)
    }

    // The answer of a write of `len` bytes.
    fn write_answer(self, room: usize, lens: &[u64], len: usize, opted: bool) -> Answer
        ensures { result ≡ answer_of (write_rows self room lens.now len opted) }
    {
        let coherent = self.is_coherent_store(room, lens);
        self.admission(coherent, len, opted)
    }

    // A write: the payload is copied into its slot, and the number is the next; or it is refused, and nothing changes.
    pub fn with_sample(
        self,
        store: &mut [u8],
        lens: &mut [u64],
        payload: &[u8],
        opted: bool,
    ) -> Admitted
        ensures { Gives2 result store.new lens.new (handed (admit_of self store.old lens.old payload.now opted)) }
    {
        let answer = self.write_answer(store.len(), lens, payload.len(), opted);
        if !answer.is_done() {
            let numbered = Numbered {
                answer,
                ..Numbered::default()
            };
            return Admitted {
                numbered,
                flow: self,
            };
        }
        let slot = (self.last.rank() % self.limits.slots) as usize;
        put_in(store, lens, payload, slot, self.limits.slot_bytes as usize);
        let flow = self.after(opted);
        let number = flow.last;
        Admitted {
            numbered: Numbered { answer, number },
            flow,
        }
    }

    // Whether number n is retained, and the limits and `count` lengths give it a slot.
    #[tactic(auto, using(crate::proofs::Between::between, sets::proofs::Bools::and_assoc))]
    fn has_place(self, count: usize, n: u64) -> bool
        ensures { result ≡ has_place (flow_view self) count n }
    {
        let slots = self.limits.slots;
        (self.first.rank()..=self.last.rank()).contains(&n)
            & (count == slots as usize)
            & (1..=Limits::MOST_SLOTS).contains(&slots)
            & (self.limits.slot_bytes <= Limits::MOST_SLOT_BYTES)
    }

    // Where the bytes of a sample lie, in a store that was found coherent: after one `is_coherent_store` this serves for many samples. It doesn't look at the
    // store, and of one that isn't coherent it promises no more than it says.
    pub fn located(self, lens: &[u64], number: SequenceNumber) -> Located
        ensures { result ≡ located_of self lens.now number }
    {
        let n = number.rank();
        if !self.has_place(lens.len(), n) {
            return Located {
                answer: Answer::refused(Refusal::Nothing),
                ..Located::default()
            };
        }
        let slot = (n.saturating_sub(1) % self.limits.slots) as usize;
        Located {
            answer: Answer::done(),
            start: slot * self.limits.slot_bytes as usize,
            length: lens[slot] as usize,
        }
    }

    // Where the bytes of a sample lie in a store of `room` bytes.
    pub fn locate(self, room: usize, lens: &[u64], number: SequenceNumber) -> Located
        ensures { result ≡ locate_of self room lens.now number }
    {
        if !self.is_coherent_store(room, lens) {
            return Located {
                answer: Answer::refused(Refusal::Incoherent),
                ..Located::default()
            };
        }
        self.located(lens, number)
    }

    // The bytes of a sample, as a part of the lent store, with the answer: so an empty sample is told from one that is gone. What decides stands in `locate` and
    // `part`, since a function over a struct that holds a reference is proved by a walk of its MIR; who is to need no walk calls those two.
    pub fn get_by_sn<'a>(self, store: &'a [u8], lens: &[u64], number: SequenceNumber) -> Fetched<'a>
        ensures { fetched_view result ≡ fetch_of self store.now lens.now number }
    {
        let at = self.locate(store.len(), lens, number);
        Fetched {
            answer: at.answer,
            bytes: at.part(store),
        }
    }
}

impl Located {
    // The part of a store that lies there: as much of it as the store has.
    pub fn part<'a>(self, store: &'a [u8]) -> &'a [u8]
        ensures { result.now ≡ part_of self store.now }
    {
        let (_, rest) = store.split_at(self.start.min(store.len()));
        &rest[..self.length.min(rest.len())]
    }
}
