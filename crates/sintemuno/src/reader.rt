// The reader record: acknowledged and unsent numbers, and the pending gap. The proxy goes by value and comes back, the rooms are lent.
ghost use Rattle.std.specs.Prelude.{◌≡◌};
ghost use Rattle.numbers.specs.Cursor.{cursor_at};
ghost use Rattle.numbers.specs.Promise.{Gives1, Gives2};
ghost use Rattle.rtps_reader_proxy.specs.Unsent.{new_proxy_of, notified_of, marked_sent_of, removed_before_of, taken_of, next_unsent_of};
ghost use Rattle.rtps_reader_proxy.specs.Acks.{ack_nacked_of};
ghost use Rattle.rtps_reader_proxy.specs.Gaps.{gap_inserted_of, gap_up_to_of, next_gap_of};

use number_sets::SequenceNumberSet;
use numbers::{Cursor, NextNumber, SequenceNumber};
use rtps_reader_proxy::ReaderProxy;
use rtps_reader_proxy::acks::AckNacked;
use rtps_reader_proxy::proxy::Changed;
use rtps_reader_proxy::unsent::Taken;

#[unsafe(no_mangle)]
pub extern "C" fn sintemuno_reader_new(cap: usize) -> Changed
    ensures { result ≡ new_proxy_of cap }
{
    ReaderProxy::new(cap)
}

#[unsafe(no_mangle)]
pub extern "C" fn sintemuno_reader_first_unsent_change(
    proxy: ReaderProxy,
    unsent: &[u64],
) -> NextNumber
    ensures { result ≡ next_unsent_of (cursor_at 0) proxy unsent.now }
{
    proxy.first_unsent_change(unsent)
}

#[unsafe(no_mangle)]
pub extern "C" fn sintemuno_reader_next_unsent_change(
    proxy: ReaderProxy,
    unsent: &[u64],
    at: Cursor,
) -> NextNumber
    ensures { result ≡ next_unsent_of at proxy unsent.now }
{
    proxy.next_unsent_change(unsent, at)
}

#[unsafe(no_mangle)]
pub extern "C" fn sintemuno_reader_notify_new_cache_change(
    proxy: ReaderProxy,
    unsent: &mut [u64],
    number: SequenceNumber,
) -> Changed
    ensures { Gives1 result unsent.new (notified_of number proxy unsent.old) }
{
    proxy.notify_new_cache_change(unsent, number)
}

#[unsafe(no_mangle)]
pub extern "C" fn sintemuno_reader_mark_change_sent(
    proxy: ReaderProxy,
    unsent: &mut [u64],
    number: SequenceNumber,
) -> Changed
    ensures { Gives1 result unsent.new (marked_sent_of number proxy unsent.old) }
{
    proxy.mark_change_sent(unsent, number)
}

#[unsafe(no_mangle)]
pub extern "C" fn sintemuno_reader_remove_from_unsent_set_all_before(
    proxy: ReaderProxy,
    unsent: &mut [u64],
    before: SequenceNumber,
) -> Changed
    ensures { Gives1 result unsent.new (removed_before_of before proxy unsent.old) }
{
    proxy.remove_from_unsent_set_all_before(unsent, before)
}

#[unsafe(no_mangle)]
pub extern "C" fn sintemuno_reader_take_unsent(
    proxy: ReaderProxy,
    unsent: &mut [u64],
    out: &mut [u64],
) -> Taken
    ensures { Gives2 result unsent.new out.new (taken_of proxy unsent.old out.old) }
{
    proxy.take_unsent(unsent, out)
}

#[unsafe(no_mangle)]
pub extern "C" fn sintemuno_reader_handle_ack_nack(
    proxy: ReaderProxy,
    unsent: &mut [u64],
    gaps: &mut [u64],
    set: SequenceNumberSet,
    last: SequenceNumber,
) -> AckNacked
    ensures { Gives2 result unsent.new gaps.new (ack_nacked_of set last proxy unsent.old gaps.old) }
{
    proxy.handle_ack_nack(unsent, gaps, set, last)
}

#[unsafe(no_mangle)]
pub extern "C" fn sintemuno_reader_insert_pending_gap(
    proxy: ReaderProxy,
    gaps: &mut [u64],
    number: SequenceNumber,
    last: SequenceNumber,
) -> Changed
    ensures { Gives1 result gaps.new (gap_inserted_of number last proxy gaps.old) }
{
    proxy.insert_pending_gap(gaps, number, last)
}

#[unsafe(no_mangle)]
pub extern "C" fn sintemuno_reader_set_pending_gap_up_to(
    proxy: ReaderProxy,
    gaps: &mut [u64],
    end: SequenceNumber,
    last: SequenceNumber,
) -> Changed
    ensures { Gives1 result gaps.new (gap_up_to_of end last proxy gaps.old) }
{
    proxy.set_pending_gap_up_to(gaps, end, last)
}

#[unsafe(no_mangle)]
pub extern "C" fn sintemuno_reader_next_pending_gap(
    proxy: ReaderProxy,
    gaps: &[u64],
    at: Cursor,
) -> NextNumber
    ensures { result ≡ next_gap_of at proxy gaps.now }
{
    proxy.next_pending_gap(gaps, at)
}
