// A match, and a departure, with the frontier stored in the same step, on what a server holds: the list and the flow record in place. Where the step is
// refused, nothing is changed.
ghost use Rattle.std.specs.Prelude.{◌≡◌};
ghost use Rattle.numbers.specs.Promise.{Gives2};
ghost use Rattle.writer_steps.specs.Readers.{change_step, match_step, depart_step};

use crate::flows::with_flow;
use numbers::Answer;
use reader_list::changes::{Slot, departing, front_with, matching, store};
use reader_list::{Match, ReaderHead};
use writer_send_buffer::{Told, WriterSendBuffer};

// The slot of that id stored, with the frontier that the list then has.
fn change(
    list: &mut [ReaderHead],
    flow: &mut WriterSendBuffer,
    id: u64,
    slot: Result<Slot, Answer>,
) -> Told
    ensures { Gives2 result list.new flow.new (change_step list.old flow.old id slot) }
{
    match slot {
        Ok(slot) => {
            let told = flow.set_acked_frontier(front_with(list, id, slot));
            if told.answer.is_done() {
                store(list, slot);
            }
            told
        }
        Err(answer) => Told {
            answer: with_flow(answer, *flow),
            yes: false,
        },
    }
}

pub fn match_reader(list: &mut [ReaderHead], flow: &mut WriterSendBuffer, m: Match) -> Told
    ensures { Gives2 result list.new flow.new (match_step list.old flow.old m) }
{
    let slot = matching(list, m);
    change(list, flow, m.id, slot)
}

pub fn depart_reader(list: &mut [ReaderHead], flow: &mut WriterSendBuffer, id: u64) -> Told
    ensures { Gives2 result list.new flow.new (depart_step list.old flow.old id) }
{
    let slot = departing(list, id);
    change(list, flow, id, slot)
}
