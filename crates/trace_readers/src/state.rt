// What a trace keeps from line to line: the writer, once a line has made it, and its two readers. Their rooms are lent beside it.
ghost use Rattle.std.specs.Prelude.{◌≡◌, ◌<◌};
ghost use Rattle.trace_readers.specs.State.{trace_begun, refused_by, incoherent, not_understood, reader_in};

use numbers::{Answer, Refusal};
use reader_list::ReaderHead;
use rtps_reader_proxy::ReaderProxy;
use writer_send_buffer::WriterSendBuffer;

// `started` stays beside the record: `follow` and `answer_piece` take any trace.
#[derive(Clone, Copy)]
pub struct Trace {
    pub started: bool,
    pub flow: WriterSendBuffer,
    pub heads: [ReaderHead; 2],
    pub readers: [ReaderProxy; 2],
}

// What a line is answered, and what the trace then keeps. Both stand in either case: no Result.
#[derive(Clone, Copy)]
pub struct Followed {
    pub answer: Answer,
    pub trace: Trace,
}

impl Trace {
    // What is asked of the rooms' lengths is asked once for a line, by its public function, and passed on as a `requires`: a `&mut [u64; N]` by
    // `try_from` is a loan out of a slice in a Result, of which a caller's proof learns nothing (no proof closes).

    // The large room: the lengths of as many samples as a writer can have, then the unsent numbers of each reader, then the words of
    // fragment bits of each.
    pub const SLOTS: usize = 256;

    pub const UNSENT: usize = Trace::SLOTS;

    pub const WORDS: usize = Trace::UNSENT + 2 * ReaderProxy::MOST_UNSENT;

    pub const LARGE: usize = Trace::WORDS + 2 * ReaderProxy::FRAG_WORDS;

    // The small one: the gap members of each reader, then the samples with requested fragments of each.
    pub const SAMPLES: usize = 2 * ReaderProxy::GAPS;

    pub const SMALL: usize = Trace::SAMPLES + 2 * ReaderProxy::FRAG_SAMPLES;

    // The store. "16-byte slots"
    pub const SLOT_BYTES: usize = 16;

    pub const STORE: usize = Trace::SLOTS * Trace::SLOT_BYTES;

    // Before the first line: no writer, and two readers that nothing is kept of.
    pub fn start() -> Trace
        ensures { result ≡ trace_begun }
    {
        let free = ReaderHead::FREE;
        let fresh = ReaderProxy::new(ReaderProxy::DEFAULT_UNSENT_CAP).proxy;
        Trace {
            started: false,
            flow: WriterSendBuffer::default(),
            heads: [free, free],
            readers: [fresh, fresh],
        }
    }

    pub(crate) fn reader(self, i: usize) -> ReaderProxy
        requires { i < 2 }
        ensures { result ≡ reader_in i self }
    {
        self.readers[i]
    }

    // A refusal: nothing changes.
    pub fn refused(self, answer: Answer) -> Followed
        ensures { result ≡ refused_by answer self }
    {
        Followed {
            answer,
            trace: self,
        }
    }

    // A room of another length isn't coherent.
    pub fn incoherent(self) -> Followed
        ensures { result ≡ refused_by incoherent self }
    {
        self.refused(Answer::refused(Refusal::Incoherent))
    }

    // "Trace line not understood".
    pub fn not_understood(self) -> Followed
        ensures { result ≡ refused_by not_understood self }
    {
        self.refused(Answer::not_understood())
    }
}
