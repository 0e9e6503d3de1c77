// The send step for many: the unsent numbers are taken from the front, under one check for all of them, and each is told with its place in the store.
ghost use Rattle.std.specs.Prelude.{◌≡◌, map};
ghost use Rattle.numbers.specs.Promise.{Gives4};
ghost use Rattle.rising.specs.Runs.{filled};
ghost use Rattle.writer_steps.specs.Many.{located_start, start_for, length_for, Placeable, send_many_of};

use numbers::{Answer, Refusal, SequenceNumber};
use rtps_reader_proxy::ReaderProxy;
use writer_send_buffer::{Located, WriterSendBuffer};

// How many numbers were sent, and the reader's proxy as it then is, as C sees it.
#[repr(C)]
#[derive(Clone, Copy)]
pub struct SentMany {
    pub answer: Answer,
    pub count: usize,
    pub proxy: ReaderProxy,
}

impl SentMany {
    // The start of what goes as a gap, in a room of numbers that C lends.
    pub const NO_START: u64 = u64::MAX;
}

fn start_of(at: Located) -> u64
    ensures { result ≡ located_start at }
{
    if at.answer.is_done() {
        at.start as u64
    } else {
        SentMany::NO_START
    }
}

// Where each of the numbers lies. Three rooms of numbers side by side: so C lends them.
fn places(
    flow: WriterSendBuffer,
    lens: &[u64],
    numbers: &[u64],
    starts: &mut [u64],
    lengths: &mut [u64],
)
    requires { Placeable numbers.now starts.old lengths.old }
    ensures { (starts.new ≡ filled (map (start_for flow lens.now) numbers.now) starts.old) × (lengths.new ≡ filled (map (length_for flow lens.now) numbers.now) lengths.old) }
{
    for (i, number) in numbers.iter().enumerate() {
        let at = flow.located(lens, SequenceNumber::from_rank(*number));
        starts[i] = start_of(at);
        lengths[i] = at.length as u64;
    }
}

pub fn send_many(
    flow: WriterSendBuffer,
    room: usize,
    lens: &[u64],
    proxy: ReaderProxy,
    unsent: &mut [u64],
    numbers: &mut [u64],
    starts: &mut [u64],
    lengths: &mut [u64],
) -> SentMany
    ensures { Gives4 result unsent.new numbers.new starts.new lengths.new (send_many_of flow room lens.now proxy unsent.old numbers.old starts.old lengths.old) }
{
    if !flow.is_coherent_store(room, lens) {
        return SentMany {
            answer: Answer::refused(Refusal::Incoherent),
            count: 0,
            proxy,
        };
    }
    let k = numbers.len().min(starts.len().min(lengths.len()));
    let taken = proxy.take_unsent(unsent, &mut numbers[..k]);
    let answer = Answer::found(taken.answer.is_done(), proxy.unsent_count == 0);
    if !answer.is_done() {
        return SentMany {
            answer,
            count: 0,
            proxy,
        };
    }
    places(flow, lens, &numbers[..taken.count], starts, lengths);
    SentMany {
        answer,
        count: taken.count,
        proxy: taken.proxy,
    }
}
