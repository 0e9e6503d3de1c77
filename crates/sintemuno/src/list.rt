// The reader list, lent in place and handed on.
ghost use Rattle.std.specs.Prelude.{◌≡◌};
ghost use Rattle.numbers.specs.Promise.{Gives1};
ghost use Rattle.reader_list.specs.Slots.{front_of, found_of, match_of, depart_of, ack_of};

use numbers::Answer;
use reader_list::calls::{
    frontier, matched_reader_add, matched_reader_lookup, matched_reader_remove, set_acked,
};
use reader_list::{Acked, Found, Front, Match, ReaderHead};

#[unsafe(no_mangle)]
pub extern "C" fn sintemuno_list_frontier(list: &[ReaderHead]) -> Front
    ensures { result ≡ front_of list.now }
{
    frontier(list)
}

#[unsafe(no_mangle)]
pub extern "C" fn sintemuno_list_matched_reader_lookup(list: &[ReaderHead], id: u64) -> Found
    ensures { result ≡ found_of list.now id }
{
    matched_reader_lookup(list, id)
}

// A match: the first free slot takes the reader.
#[unsafe(no_mangle)]
pub extern "C" fn sintemuno_list_matched_reader_add(list: &mut [ReaderHead], m: Match) -> Answer
    ensures { Gives1 result list.new (match_of list.old m) }
{
    matched_reader_add(list, m)
}

// A departure: the reader's slot is free again.
#[unsafe(no_mangle)]
pub extern "C" fn sintemuno_list_matched_reader_remove(list: &mut [ReaderHead], id: u64) -> Answer
    ensures { Gives1 result list.new (depart_of list.old id) }
{
    matched_reader_remove(list, id)
}

#[unsafe(no_mangle)]
pub extern "C" fn sintemuno_list_set_acked(list: &mut [ReaderHead], a: Acked) -> Answer
    ensures { Gives1 result list.new (ack_of list.old a) }
{
    set_acked(list, a)
}
