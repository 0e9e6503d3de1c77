// The flow record changed in place: thin wrappers over the by-value calls. Both forms stay: README and the C interface have them.
ghost use Rattle.numbers.specs.Promise.{Gives1, Gives3};
ghost use Rattle.writer_send_buffer.specs.Buffer.{acked_of, sent_of, evict_of};
ghost use Rattle.writer_send_buffer.specs.Samples.{admit_of};

use crate::flow::{Numbered, WriterSendBuffer};
use numbers::{Answer, SequenceNumber, Told};
use reader_list::AckedFrontier;

impl WriterSendBuffer {
    pub fn admit(
        &mut self,
        store: &mut [u8],
        lens: &mut [u64],
        payload: &[u8],
        opted: bool,
    ) -> Numbered
        ensures { Gives3 result self.new store.new lens.new (admit_of self.old store.old lens.old payload.now opted) }
    {
        let m = self.with_sample(store, lens, payload, opted);
        *self = m.flow;
        m.numbered
    }

    // The answer says whether to wake who waits.
    pub fn set_acked_frontier(&mut self, frontier: AckedFrontier) -> Told
        ensures { Gives1 result self.new (acked_of self.old frontier) }
    {
        let m = self.with_acked_frontier(frontier);
        *self = m.flow;
        m.told
    }

    // The answer says whether to wake who waits.
    pub fn set_sent_frontier(&mut self, number: SequenceNumber) -> Told
        ensures { Gives1 result self.new (sent_of self.old number) }
    {
        let m = self.with_sent_frontier(number);
        *self = m.flow;
        m.told
    }

    pub fn remove_changes_before(&mut self, before: SequenceNumber) -> Answer
        ensures { Gives1 result self.new (evict_of self.old before) }
    {
        let m = self.with_changes_removed(before);
        *self = m.flow;
        m.answer
    }
}
