// Whether the ids of a lent list are all different, but for the free slots' 0. A reader whose id has the low bits of none before it stands alone; only where
// they are met again are the ids so far looked through, which are gathered side by side. Free slots are passed over.
ghost use Rattle.std.specs.Prelude.{◌≡◌, ◌≤◌, length, eqb};
ghost use Rattle.std.specs.List.{list_any};
ghost use Rattle.numbers.specs.Capacities.{most_readers};
ghost use Rattle.reader_list.specs.Readers.{different};
ghost use Rattle.reader_list.specs.Slots.{readers};

use crate::heads::ReaderHead;

// Whether the id is among these: every one is looked at, without a branch.
fn has_id(ids: &[u64], id: u64) -> bool
    ensures { result ≡ list_any (λ i. eqb i id) ids.now }
{
    ids.iter().fold(false, |found, i| found | (*i == id))
}

// The ids of the readers so far are gathered side by side, and looked through where the low bits of one are met again.
// Not inlined: its array would stand in each caller's frame.
#[inline(never)]
fn are_different_gathered(list: &[ReaderHead]) -> bool
    requires { length list.now ≤ most_readers }
    ensures { result ≡ different (readers list.now) }
{
    let mut ids = [0u64; ReaderHead::MOST];
    let mut count = 0;
    // one bit for the low six bits of each id so far
    let mut low = 0u64;
    let mut different = true;
    for h in list {
        if h.id != 0 {
            let met = low | 1 << (h.id % 64);
            if met == low {
                different &= !has_id(&ids[..count], h.id);
            }
            ids[count] = h.id;
            count += 1;
            low = met;
        }
    }
    different
}

// Nothing is gathered until low bits are met again.
pub(crate) fn are_different(list: &[ReaderHead]) -> bool
    requires { length list.now ≤ most_readers }
    ensures { result ≡ different (readers list.now) }
{
    let mut low = 0u64;
    for h in list {
        if h.id != 0 {
            let met = low | 1 << (h.id % 64);
            if met == low {
                return are_different_gathered(list);
            }
            low = met;
        }
    }
    true
}
