// A place for a reader: its proxy, and a stretch of the room. How much of the stretch is looked at, and whether the place is free.
ghost use Rattle.std.specs.Prelude.{◌≡◌};
ghost use Rattle.writer_write.specs.Places.{is_free, stride_of, own_of};

use rtps_reader_proxy::ReaderProxy;

// A free place is no reader's: its proxy is all zeros.
pub(crate) fn is_free(proxy: ReaderProxy) -> bool
    ensures { result ≡ is_free proxy }
{
    proxy == ReaderProxy::default()
}

// How long a stretch is, where so many places share the room.
pub(crate) fn stride_of(places: usize, room: &[u64]) -> usize
    ensures { result ≡ stride_of places room.now }
{
    room.len().checked_div(places).unwrap_or(0)
}

// The part of a stretch that goes by what the reader holds: that and one more, but no more than its cap or the stretch.
pub(crate) fn own_of(stride: usize, proxy: ReaderProxy) -> usize
    ensures { result ≡ own_of stride proxy }
{
    let most = proxy.unsent_cap.min(stride);
    proxy.unsent_count.saturating_add(1).min(most)
}
