// The calls on a lent list: each finds the slot that it is about, and at most one slot is stored.
ghost use Rattle.std.specs.Prelude.{◌≡◌};
ghost use Rattle.numbers.specs.Promise.{Gives1};
ghost use Rattle.reader_list.specs.Slots.{front_of, found_of, match_of, depart_of, ack_of};
ghost use Rattle.reader_list.specs.Ahead.{list_changed};

use crate::changes::{Slot, acking, departing, find, matching, store};
use crate::heads::{AckedFrontier, ReaderHead};
use crate::looks::{is_coherent, smallest};
use numbers::{Answer, SequenceNumber};

// A match, as C sees it: the reader's id, whether it is reliable, and its cap of unsent numbers.
#[repr(C)]
#[derive(Clone, Copy)]
pub struct Match {
    pub id: u64,
    pub reliable: bool,
    pub cap: u64,
}

impl Match {
    pub const MOST_CAP: u64 = 1024;
}

// A reader's id, and the first number that it has not acknowledged, as C sees them.
#[repr(C)]
#[derive(Clone, Copy)]
pub struct Acked {
    pub id: u64,
    pub acked: SequenceNumber,
}

// Where a reader stands, as C sees it.
#[repr(C)]
#[derive(Clone, Copy)]
pub struct Found {
    pub answer: Answer,
    pub place: usize,
    pub head: ReaderHead,
}

// The frontier, as C sees it.
#[repr(C)]
#[derive(Clone, Copy)]
pub struct Front {
    pub answer: Answer,
    pub frontier: AckedFrontier,
}

// The smallest acked over the reliable readers, raised to 1 at least; absent, where there is none.
pub fn frontier(list: &[ReaderHead]) -> Front
    ensures { result ≡ front_of list.now }
{
    let coherent = is_coherent(list);
    let front = if coherent { smallest(list) } else { 0 };
    Front {
        answer: Answer::coherence(coherent),
        frontier: AckedFrontier::from_rank(front),
    }
}

pub fn matched_reader_lookup(list: &[ReaderHead], id: u64) -> Found
    ensures { result ≡ found_of list.now id }
{
    match find(list, id) {
        Ok(Slot { place, head }) => Found {
            answer: Answer::done(),
            place,
            head,
        },
        Err(answer) => Found {
            answer,
            place: 0,
            head: ReaderHead::FREE,
        },
    }
}

// The slot is stored, where the call isn't refused.
fn change(list: &mut [ReaderHead], slot: Result<Slot, Answer>) -> Answer
    ensures { Gives1 result list.new (list_changed list.old slot) }
{
    match slot {
        Ok(slot) => {
            store(list, slot);
            Answer::done()
        }
        Err(answer) => answer,
    }
}

// A match: the first free slot takes the reader.
pub fn matched_reader_add(list: &mut [ReaderHead], m: Match) -> Answer
    ensures { Gives1 result list.new (match_of list.old m) }
{
    let slot = matching(list, m);
    change(list, slot)
}

// A departure: the reader's slot is free again.
pub fn matched_reader_remove(list: &mut [ReaderHead], id: u64) -> Answer
    ensures { Gives1 result list.new (depart_of list.old id) }
{
    let slot = departing(list, id);
    change(list, slot)
}

// One reader's acked set.
pub fn set_acked(list: &mut [ReaderHead], a: Acked) -> Answer
    ensures { Gives1 result list.new (ack_of list.old a) }
{
    let slot = acking(list, a);
    change(list, slot)
}
