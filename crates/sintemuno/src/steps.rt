// What a server runs as one step.
ghost use Rattle.numbers.specs.Promise.{Gives1, Gives2, Gives4};
ghost use Rattle.writer_steps.specs.Acks.{ack_step};
ghost use Rattle.writer_steps.specs.Frags.{nack_frag_step};
ghost use Rattle.writer_steps.specs.Many.{send_many_of};
ghost use Rattle.writer_steps.specs.Readers.{match_step, depart_step};
ghost use Rattle.writer_steps.specs.Send.{send_of};
ghost use Rattle.writer_write.specs.InPlace.{Wrote, write_of};

use number_sets::{FragmentNumberSet, SequenceNumberSet};
use numbers::SequenceNumber;
use reader_list::{Match, ReaderHead};
use rtps_reader_proxy::ReaderProxy;
use rtps_reader_proxy::proxy::Changed;
use writer_send_buffer::{Numbered, Told, WriterSendBuffer};
use writer_steps::acks::take_ack_nack;
use writer_steps::frags::take_nack_frag;
use writer_steps::many::send_many;
use writer_steps::readers::{depart_reader, match_reader};
use writer_steps::send::send_first;
use writer_steps::{AckTold, Sent, SentMany};
use writer_write::write::write;

// The first unsent number is marked sent: as data if it is retained, else as a gap.
#[unsafe(no_mangle)]
pub extern "C" fn sintemuno_send_first(
    flow: WriterSendBuffer,
    proxy: ReaderProxy,
    unsent: &mut [u64],
) -> Sent
    ensures { Gives1 result unsent.new (send_of flow proxy unsent.old) }
{
    send_first(flow, proxy, unsent)
}

// The first unsent numbers, as many as the three rooms have places for, are marked sent: each with its place in the store, or no start where it goes as a gap.
#[unsafe(no_mangle)]
pub extern "C" fn sintemuno_send_many(
    flow: WriterSendBuffer,
    room: usize,
    lens: &[u64],
    proxy: ReaderProxy,
    unsent: &mut [u64],
    numbers: &mut [u64],
    starts: &mut [u64],
    lengths: &mut [u64],
) -> SentMany
    ensures { Gives4 result unsent.new numbers.new starts.new lengths.new (send_many_of flow room lens.now proxy unsent.old numbers.old starts.old lengths.old) }
{
    send_many(flow, room, lens, proxy, unsent, numbers, starts, lengths)
}

// A write that tells every reader: the proxies side by side in `proxies`, the unsent rooms in `unsent`, a stretch for each.
#[unsafe(no_mangle)]
pub extern "C" fn sintemuno_write(
    flow: &mut WriterSendBuffer,
    store: &mut [u8],
    lens: &mut [u64],
    payload: &[u8],
    opted: bool,
    proxies: &mut [ReaderProxy],
    unsent: &mut [u64],
) -> Numbered
    ensures { Wrote result flow.new store.new lens.new proxies.new unsent.new (write_of flow.old store.old lens.old payload.now opted proxies.old unsent.old) }
{
    write(flow, store, lens, payload, opted, proxies, unsent)
}

// A match, with the frontier stored in the same step.
#[unsafe(no_mangle)]
pub extern "C" fn sintemuno_match_reader(
    list: &mut [ReaderHead],
    flow: &mut WriterSendBuffer,
    m: Match,
) -> Told
    ensures { Gives2 result list.new flow.new (match_step list.old flow.old m) }
{
    match_reader(list, flow, m)
}

// A departure, with the frontier stored in the same step.
#[unsafe(no_mangle)]
pub extern "C" fn sintemuno_depart_reader(
    list: &mut [ReaderHead],
    flow: &mut WriterSendBuffer,
    id: u64,
) -> Told
    ensures { Gives2 result list.new flow.new (depart_step list.old flow.old id) }
{
    depart_reader(list, flow, id)
}

// An ACKNACK taken by reader id: the reader's record, its head's acked and the stored frontier move together.
#[unsafe(no_mangle)]
pub extern "C" fn sintemuno_take_ack_nack(
    list: &mut [ReaderHead],
    flow: &mut WriterSendBuffer,
    proxy: ReaderProxy,
    unsent: &mut [u64],
    gaps: &mut [u64],
    id: u64,
    set: SequenceNumberSet,
) -> AckTold
    ensures { Gives4 result list.new flow.new unsent.new gaps.new (ack_step list.old flow.old id set proxy unsent.old gaps.old) }
{
    take_ack_nack(list, flow, proxy, unsent, gaps, id, set)
}

// A NACK_FRAG taken by reader id: the list is looked at, and the reader's record takes the request.
#[unsafe(no_mangle)]
pub extern "C" fn sintemuno_take_nack_frag(
    list: &[ReaderHead],
    proxy: ReaderProxy,
    samples: &mut [u64],
    words: &mut [u64],
    id: u64,
    number: SequenceNumber,
    set: FragmentNumberSet,
) -> Changed
    ensures { Gives2 result samples.new words.new (nack_frag_step list.now id number set proxy samples.old words.old) }
{
    take_nack_frag(list, proxy, samples, words, id, number, set)
}
