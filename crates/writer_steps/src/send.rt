// The send step for one reader.
ghost use Rattle.std.specs.Prelude.{◌≡◌};
ghost use Rattle.numbers.specs.Promise.{Gives1};
ghost use Rattle.writer_steps.specs.Send.{send_of};

use numbers::answers::earlier;
use numbers::{Answer, SequenceNumber};
use rtps_reader_proxy::ReaderProxy;
use writer_send_buffer::WriterSendBuffer;

// The number sent, whether as data (else as a gap), and the reader's proxy as it then is, as C sees it.
#[repr(C)]
#[derive(Clone, Copy)]
pub struct Sent {
    pub answer: Answer,
    pub number: SequenceNumber,
    pub data: bool,
    pub proxy: ReaderProxy,
}

// The first unsent number, as data if it is retained, else as a gap, is marked sent.
pub fn send_first(flow: WriterSendBuffer, proxy: ReaderProxy, unsent: &mut [u64]) -> Sent
    ensures { Gives1 result unsent.new (send_of flow proxy unsent.old) }
{
    let retained = flow.first_change_sequence_number();
    let next = proxy.first_unsent_change(unsent);
    let answer = earlier(retained.answer, next.answer);
    if !answer.is_done() {
        return Sent {
            answer,
            number: SequenceNumber::default(),
            data: false,
            proxy,
        };
    }
    let first = flow.first.rank();
    let last = flow.last.rank();
    let n = next.number.rank();
    let marked = proxy.mark_change_sent(unsent, next.number);
    Sent {
        answer,
        number: next.number,
        data: (first <= n) & (n <= last),
        proxy: marked.proxy,
    }
}
