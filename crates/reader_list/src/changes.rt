// The slot that each call finds or would store, known before any is stored; and the one place that stores a slot.
ghost use Rattle.std.specs.Prelude.{◌≡◌, Ok, set};
ghost use Rattle.reader_list.specs.Ahead.{reader_slot, found_slot, match_slot, depart_slot, ack_slot, front_stored, front_with};

use crate::calls::{Acked, Match};
use crate::heads::{AckedFrontier, ReaderHead};
use crate::looks::{is_coherent, joined, place_of, smallest_of_others};
use numbers::{Answer, Refusal};

// A place in the list, and the head that stands there or is to stand there.
#[derive(Clone, Copy)]
pub struct Slot {
    pub place: usize,
    pub head: ReaderHead,
}

// The slot of a reader, in a coherent list.
fn reader(list: &[ReaderHead], id: u64) -> Result<Slot, Answer>
    ensures { result ≡ reader_slot list.now id }
{
    match place_of(list, id) {
        Some(place) if id != 0 => Ok(Slot {
            place,
            head: list[place],
        }),
        _ => Err(Answer::refused(Refusal::Reader)),
    }
}

// The slot of a reader.
pub(crate) fn find(list: &[ReaderHead], id: u64) -> Result<Slot, Answer>
    ensures { result ≡ found_slot list.now id }
{
    if !is_coherent(list) {
        return Err(Answer::refused(Refusal::Incoherent));
    }
    reader(list, id)
}

// A match takes the first free slot.
pub fn matching(list: &[ReaderHead], m: Match) -> Result<Slot, Answer>
    ensures { result ≡ match_slot list.now m }
{
    if m.cap < 1 || Match::MOST_CAP < m.cap {
        return Err(Answer::refused(Refusal::Limit));
    }
    if !is_coherent(list) {
        return Err(Answer::refused(Refusal::Incoherent));
    }
    if m.id == 0 || place_of(list, m.id).is_some() {
        return Err(Answer::refused(Refusal::Reader));
    }
    let Some(place) = place_of(list, 0) else {
        return Err(Answer::refused(Refusal::ReadersFull));
    };
    let head = ReaderHead {
        id: m.id,
        reliable: m.reliable,
        ..ReaderHead::FREE
    };
    Ok(Slot { place, head })
}

// A departure leaves the reader's slot free.
pub fn departing(list: &[ReaderHead], id: u64) -> Result<Slot, Answer>
    ensures { result ≡ depart_slot list.now id }
{
    let slot = find(list, id)?;
    Ok(Slot {
        head: ReaderHead::FREE,
        ..slot
    })
}

// The reader's slot with another acked.
pub(crate) fn acking(list: &[ReaderHead], a: Acked) -> Result<Slot, Answer>
    ensures { result ≡ ack_slot list.now a }
{
    if !is_coherent(list) {
        return Err(Answer::refused(Refusal::Incoherent));
    }
    if a.acked.is_negative() {
        return Err(Answer::refused(Refusal::Range));
    }
    let slot = reader(list, a.id)?;
    Ok(Slot {
        head: ReaderHead {
            acked: a.acked,
            ..slot.head
        },
        ..slot
    })
}

// The frontier of the list once this head stands in the slot of that id, or in a free slot where no reader has it.
pub fn front_stored(list: &[ReaderHead], id: u64, head: ReaderHead) -> AckedFrontier
    ensures { result ≡ front_stored list.now id head }
{
    AckedFrontier::from_rank(joined(smallest_of_others(list, id), head))
}

// The frontier of the list that a change leaves which stores the slot.
pub fn front_with(list: &[ReaderHead], id: u64, slot: Slot) -> AckedFrontier
    ensures { result ≡ (front_with list.now id (Ok slot)).frontier }
{
    front_stored(list, id, slot.head)
}

// The slot is stored. (By an index: with `get_mut` the proof didn't close.)
pub fn store(list: &mut [ReaderHead], slot: Slot)
    ensures { list.new ≡ set list.old slot.place slot.head }
{
    if slot.place < list.len() {
        list[slot.place] = slot.head;
    }
}
