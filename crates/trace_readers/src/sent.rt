// op=sent: what was sent to a reader.
ghost use Rattle.std.specs.Prelude.{◌≡◌, ◌<◌};
ghost use Rattle.numbers.specs.Promise.{Gives1};
ghost use Rattle.trace_readers.specs.Requests.{sent_followed, sent_line};

use crate::state::{Followed, Trace};
use crate::{reader_of, unsent_at};
use numbers::answers::earlier;
use numbers::{Answer, SequenceNumber};
use reader_list::calls::matched_reader_lookup;
use rtps_reader_proxy::ReaderProxy;

impl Trace {
    // For reader i: marked, and the sent frontier raised.
    fn sent_to(
        mut self,
        i: usize,
        looked: Answer,
        n: SequenceNumber,
        unsent: &mut [u64],
    ) -> Followed
        requires { i < 2 }
        ensures { Gives1 result unsent.new (sent_followed i looked n self unsent.old) }
    {
        let proxy = self.reader(i);
        let own = Answer::coherence(proxy.unsent_coherent(unsent));
        let mut flow = self.flow;
        let told = flow.set_sent_frontier(n);
        let answer = earlier(own, earlier(told.answer, looked));
        if !answer.is_done() {
            return self.refused(answer);
        }
        let marked = proxy.mark_change_sent(unsent, n);
        self.started = true;
        self.flow = flow;
        self.readers[i] = marked.proxy;
        Followed {
            answer: Answer::done(),
            trace: self,
        }
    }

    // op=sent.
    pub fn sent_step(self, id: u64, seq: u64, large: &mut [u64]) -> Followed
        ensures { Gives1 result large.new (sent_line id seq self large.old) }
    {
        if large.len() != Trace::LARGE {
            return self.incoherent();
        }
        let n = SequenceNumber::from_rank(seq);
        let found = matched_reader_lookup(&self.heads, id);
        let i = reader_of(found);
        let a = unsent_at(i);
        let b = a + ReaderProxy::MOST_UNSENT;
        self.sent_to(i, found.answer, n, &mut large[a..b])
    }
}
