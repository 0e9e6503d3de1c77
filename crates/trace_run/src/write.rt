// op=write: a sample is admitted, and every reader that is there is told its number.
ghost use Rattle.std.specs.Prelude.{◌≡◌, ◌<◌, ◌≤◌, min, length};
ghost use Rattle.numbers.specs.Promise.{Gives1, Gives2};
ghost use Rattle.trace_readers.specs.State.{reader_in};
ghost use Rattle.trace_readers.specs.Rooms.{unsent_at};
ghost use Rattle.trace_run.specs.Writes.{told_to, told_at, told_both, coherent_at, both_coherent, slots_in, admit_put, written_of, write_line};

use numbers::{Answer, SequenceNumber};
use reader_list::ReaderHead;
use rtps_reader_proxy::ReaderProxy;
use trace_readers::{Followed, Trace};
use writer_send_buffer::{Admitted, WriterSendBuffer};

// As many slots as the rooms can have.
fn slots_in(flow: WriterSendBuffer) -> usize
    ensures { (result ≡ slots_in flow) × (result ≤ 256) }
{
    (flow.limits.slots as usize).min(Trace::SLOTS)
}

// Admitted into as much of the rooms as the slots take.
fn admitted_in(
    flow: WriterSendBuffer,
    payload: &[u8],
    store: &mut [u8],
    large: &mut [u64],
) -> Admitted
    requires { (length store.old ≡ 4096) × (length large.old ≡ 4352) }
    ensures { Gives2 result store.new large.new (admit_put flow payload.now store.old large.old) }
{
    let slots = slots_in(flow);
    let bytes = Trace::SLOT_BYTES * slots;
    flow.with_sample(&mut store[..bytes], &mut large[..slots], payload, false)
}

// A reader's proxy as it is told of a number; a free slot is not told.
fn told(head: ReaderHead, proxy: ReaderProxy, unsent: &mut [u64], n: SequenceNumber) -> ReaderProxy
    ensures { Gives1 result unsent.new (told_to head n proxy unsent.old) }
{
    if head.id == 0 {
        return proxy;
    }
    proxy.notify_new_cache_change(unsent, n).proxy
}

// As in trace_readers, whose own ask for `i < 2`: no public function asks anything of its callers.
fn reader(i: usize, trace: Trace) -> ReaderProxy
    requires { i < 2 }
    ensures { result ≡ reader_in i trace }
{
    trace.readers[i]
}

// Where the unsent numbers of reader i start.
fn unsent_at(i: usize) -> usize
    requires { i < 2 }
    ensures { (result ≡ unsent_at i) × (result ≤ 1280) }
{
    Trace::UNSENT + i * ReaderProxy::MOST_UNSENT
}

// Whether the unsent numbers of reader i are coherent.
fn coherent_at(i: usize, trace: Trace, large: &[u64]) -> bool
    requires { (i < 2) × (length large.now ≡ 4352) }
    ensures { result ≡ coherent_at i trace large.now }
{
    let a = unsent_at(i);
    let b = a + ReaderProxy::MOST_UNSENT;
    reader(i, trace).unsent_coherent(&large[a..b])
}

fn both_coherent(trace: Trace, large: &[u64]) -> bool
    requires { length large.now ≡ 4352 }
    ensures { result ≡ both_coherent trace large.now }
{
    coherent_at(0, trace, large) & coherent_at(1, trace, large)
}

// Reader i told, in its part of the room.
fn told_at(i: usize, mut trace: Trace, n: SequenceNumber, large: &mut [u64]) -> Trace
    requires { (i < 2) × (length large.old ≡ 4352) }
    ensures { Gives1 result large.new (told_at i trace n large.old) }
{
    let a = unsent_at(i);
    let b = a + ReaderProxy::MOST_UNSENT;
    let proxy = reader(i, trace);
    trace.readers[i] = told(trace.heads[i], proxy, &mut large[a..b], n);
    trace
}

fn told_both(mut trace: Trace, n: SequenceNumber, large: &mut [u64]) -> Trace
    requires { length large.old ≡ 4352 }
    ensures { Gives1 result large.new (told_both trace n large.old) }
{
    for i in 0..2 {
        trace = told_at(i, trace, n, large);
    }
    trace
}

// The payload is given.
fn written(trace: Trace, payload: &[u8], store: &mut [u8], large: &mut [u64]) -> Followed
    requires { (length store.old ≡ 4096) × (length large.old ≡ 4352) }
    ensures { Gives2 result store.new large.new (written_of payload.now trace store.old large.old) }
{
    let own = Answer::coherence(both_coherent(trace, large));
    if !own.is_done() {
        return trace.refused(own);
    }
    let admitted = admitted_in(trace.flow, payload, store, large);
    let answer = admitted.numbered.answer;
    if !answer.is_done() {
        return trace.refused(answer);
    }
    let after = Trace {
        started: true,
        flow: admitted.flow,
        ..trace
    };
    Followed {
        answer,
        trace: told_both(after, admitted.numbered.number, large),
    }
}

// As many zeros as the line says; one byte too many stands for any number of bytes too many.
pub fn write_step(trace: Trace, len: u64, store: &mut [u8], large: &mut [u64]) -> Followed
    ensures { Gives2 result store.new large.new (write_line len trace store.old large.old) }
{
    if store.len() != Trace::STORE {
        return trace.incoherent();
    }
    if large.len() != Trace::LARGE {
        return trace.incoherent();
    }
    let zeros = [0; 17];
    let n = (len as usize).min(17);
    written(trace, &zeros[..n], store, large)
}
