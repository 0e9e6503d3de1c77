// The send buffer: the flow record is changed in place, and goes by value to questions; the store and its lengths are lent.
ghost use Rattle.std.specs.Prelude.{◌≡◌};
ghost use Rattle.numbers.specs.Promise.{Gives1, Gives3};
ghost use Rattle.writer_send_buffer.specs.Buffer.{new_flow_of, has_room_of, first_of, last_of, acked_of, sent_of, evict_of, through_of};
ghost use Rattle.writer_send_buffer.specs.Samples.{admit_of, locate_of};

use numbers::{Answer, SequenceNumber};
use reader_list::AckedFrontier;
use writer_send_buffer::{Kind, Limits, Located, Moved, Numbered, Told, WriterSendBuffer};

#[unsafe(no_mangle)]
pub extern "C" fn sintemuno_writer_new(kind: Kind, limits: Limits) -> Moved
    ensures { result ≡ new_flow_of kind limits }
{
    WriterSendBuffer::new(kind, limits)
}

#[unsafe(no_mangle)]
pub extern "C" fn sintemuno_writer_has_room(flow: WriterSendBuffer, opted: bool) -> Told
    ensures { result ≡ has_room_of flow opted }
{
    flow.has_room(opted)
}

#[unsafe(no_mangle)]
pub extern "C" fn sintemuno_writer_admit(
    flow: &mut WriterSendBuffer,
    store: &mut [u8],
    lens: &mut [u64],
    payload: &[u8],
    opted: bool,
) -> Numbered
    ensures { Gives3 result flow.new store.new lens.new (admit_of flow.old store.old lens.old payload.now opted) }
{
    flow.admit(store, lens, payload, opted)
}

// Where a sample lies in a store of `room` bytes: the host cuts the part itself.
#[unsafe(no_mangle)]
pub extern "C" fn sintemuno_writer_locate(
    flow: WriterSendBuffer,
    room: usize,
    lens: &[u64],
    number: SequenceNumber,
) -> Located
    ensures { result ≡ locate_of flow room lens.now number }
{
    flow.locate(room, lens, number)
}

// The answer says whether to wake who waits.
#[unsafe(no_mangle)]
pub extern "C" fn sintemuno_writer_set_acked_frontier(
    flow: &mut WriterSendBuffer,
    frontier: AckedFrontier,
) -> Told
    ensures { Gives1 result flow.new (acked_of flow.old frontier) }
{
    flow.set_acked_frontier(frontier)
}

// The answer says whether to wake who waits.
#[unsafe(no_mangle)]
pub extern "C" fn sintemuno_writer_set_sent_frontier(
    flow: &mut WriterSendBuffer,
    number: SequenceNumber,
) -> Told
    ensures { Gives1 result flow.new (sent_of flow.old number) }
{
    flow.set_sent_frontier(number)
}

#[unsafe(no_mangle)]
pub extern "C" fn sintemuno_writer_remove_changes_before(
    flow: &mut WriterSendBuffer,
    before: SequenceNumber,
) -> Answer
    ensures { Gives1 result flow.new (evict_of flow.old before) }
{
    flow.remove_changes_before(before)
}

#[unsafe(no_mangle)]
pub extern "C" fn sintemuno_writer_is_acked_through(
    flow: WriterSendBuffer,
    number: SequenceNumber,
) -> Told
    ensures { result ≡ through_of flow number }
{
    flow.is_acked_through(number)
}

#[unsafe(no_mangle)]
pub extern "C" fn sintemuno_writer_first_change_sequence_number(flow: WriterSendBuffer) -> Numbered
    ensures { result ≡ first_of flow }
{
    flow.first_change_sequence_number()
}

#[unsafe(no_mangle)]
pub extern "C" fn sintemuno_writer_last_change_sequence_number(flow: WriterSendBuffer) -> Numbered
    ensures { result ≡ last_of flow }
{
    flow.last_change_sequence_number()
}
