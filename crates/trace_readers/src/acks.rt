// The lines of one reader: what it acknowledges and asks for, and what was sent to it.
ghost use Rattle.std.specs.Prelude.{◌≡◌, ◌<◌, length};
ghost use Rattle.numbers.specs.Promise.{Gives2};
ghost use Rattle.trace_readers.specs.Requests.{asked_for, ack_followed, ack_line};

use crate::state::{Followed, Trace};
use crate::{gaps_at, reader_of, unsent_at};
use number_sets::SequenceNumberSet;
use numbers::SequenceNumber;
use reader_list::calls::matched_reader_lookup;
use rtps_reader_proxy::ReaderProxy;
use writer_steps::acks::take_ack_nack;

// The set of a line; one that spans more than 256 numbers is one of 257 bits, which is refused with 3 in its turn.
fn asked(base: u64, numbers: &[u64]) -> SequenceNumberSet
    ensures { result ≡ asked_for base numbers.now }
{
    let from = SequenceNumber::from_rank(base);
    let made = SequenceNumberSet::of_numbers(from, numbers);
    if made.answer.is_done() {
        return made.set;
    }
    SequenceNumberSet {
        count: 257,
        ..SequenceNumberSet::empty(from)
    }
}

impl Trace {
    // An ACKNACK taken by the record of reader i.
    fn ack_taken(
        mut self,
        i: usize,
        id: u64,
        set: SequenceNumberSet,
        large: &mut [u64],
        small: &mut [u64],
    ) -> Followed
        requires { (i < 2) × (length large.old ≡ 4352) × (length small.old ≡ 544) }
        ensures { Gives2 result large.new small.new (ack_followed i id set self large.old small.old) }
    {
        let a = unsent_at(i);
        let b = a + ReaderProxy::MOST_UNSENT;
        let d = gaps_at(i);
        let e = d + ReaderProxy::GAPS;
        let proxy = self.reader(i);
        let taken = take_ack_nack(
            &mut self.heads,
            &mut self.flow,
            proxy,
            &mut large[a..b],
            &mut small[d..e],
            id,
            set,
        );
        self.started = true;
        self.readers[i] = taken.proxy;
        Followed {
            answer: taken.told.answer,
            trace: self,
        }
    }

    // op=ack.
    pub fn ack_step(
        self,
        id: u64,
        base: u64,
        numbers: &[u64],
        large: &mut [u64],
        small: &mut [u64],
    ) -> Followed
        ensures { Gives2 result large.new small.new (ack_line id base numbers.now self large.old small.old) }
    {
        if large.len() != Trace::LARGE {
            return self.incoherent();
        }
        if small.len() != Trace::SMALL {
            return self.incoherent();
        }
        let set = asked(base, numbers);
        let i = reader_of(matched_reader_lookup(&self.heads, id));
        self.ack_taken(i, id, set, large, small)
    }
}
