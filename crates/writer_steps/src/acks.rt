// An ACKNACK taken by reader id: the reader's record, its head's acked in the list and the stored frontier move together.
ghost use Rattle.std.specs.Prelude.{◌≡◌};
ghost use Rattle.numbers.specs.Promise.{Gives4};
ghost use Rattle.writer_steps.specs.Acks.{acked_by, there_for, ack_step};

use crate::flows::{after, with_flow};
use number_sets::SequenceNumberSet;
use numbers::answers::earlier;
use numbers::{Answer, Refusal, SequenceNumber};
use reader_list::calls::matched_reader_lookup;
use reader_list::changes::{Slot, front_with, store};
use reader_list::{Found, ReaderHead};
use rtps_reader_proxy::ReaderProxy;
use writer_send_buffer::{Told, WriterSendBuffer};

// The answer and the wake, the requests left out, and the reader's proxy as it then is, as C sees it.
#[repr(C)]
#[derive(Clone, Copy)]
pub struct AckTold {
    pub told: Told,
    pub left_out: usize,
    pub proxy: ReaderProxy,
}

// The acked that the ACKNACK leaves, where it is taken.
fn acked_by(set: SequenceNumberSet, proxy: ReaderProxy) -> SequenceNumber
    ensures { result ≡ acked_by set proxy }
{
    let from = set.base.rank().max(1);
    SequenceNumber::from_rank(proxy.all_acked_before.rank().max(from))
}

// Whether the reader is there, and whether its head and its record agree on acked.
fn there_for(found: Found, proxy: ReaderProxy) -> Answer
    ensures { result ≡ there_for found proxy }
{
    let agree = found.head.acked.rank() == proxy.all_acked_before.rank();
    let apart = found.answer.is_done() & !agree;
    earlier(
        found.answer,
        Answer::done().unless(apart, Refusal::Incoherent),
    )
}

pub fn take_ack_nack(
    list: &mut [ReaderHead],
    flow: &mut WriterSendBuffer,
    proxy: ReaderProxy,
    unsent: &mut [u64],
    gaps: &mut [u64],
    id: u64,
    set: SequenceNumberSet,
) -> AckTold
    ensures { Gives4 result list.new flow.new unsent.new gaps.new (ack_step list.old flow.old id set proxy unsent.old gaps.old) }
{
    let found = matched_reader_lookup(list, id);
    let head = ReaderHead {
        acked: acked_by(set, proxy),
        ..found.head
    };
    let slot = Slot {
        place: found.place,
        head,
    };
    let beside = with_flow(there_for(found, proxy), *flow);
    let woken = flow.with_acked_frontier(front_with(list, id, slot));
    let nacked = proxy.handle_ack_nack_among(
        unsent,
        gaps,
        set,
        flow.last,
        beside,
        woken.told.answer,
    );
    let moved = after(nacked.answer, woken, *flow);
    if moved.told.answer.is_done() {
        store(list, slot);
    }
    *flow = moved.flow;
    AckTold {
        told: moved.told,
        left_out: nacked.left_out,
        proxy: nacked.proxy,
    }
}
