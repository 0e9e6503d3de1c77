// The first walk: whether every place is coherent.
ghost use Rattle.std.specs.Prelude.{◌≡◌};
ghost use Rattle.writer_write.specs.Coherent.{place_coherent, places_coherent};

use crate::places::{is_free, own_of, stride_of};
use reader_list::ReaderHead;
use rtps_reader_proxy::ReaderProxy;
use rtps_reader_proxy::proxy::room_for;

// A free place is coherent; a reader, if what is looked at of its room is, and has room for one number more.
fn place_coherent(proxy: ReaderProxy, unsent: &[u64]) -> bool
    ensures { result ≡ place_coherent proxy unsent.now }
{
    let fits = room_for(unsent, proxy.unsent_count, proxy.unsent_cap, 1);
    is_free(proxy) | (fits & proxy.unsent_coherent(unsent))
}

// Whether there are at most 64 places, and all are coherent.
pub fn places_coherent(proxies: &[ReaderProxy], unsent: &[u64]) -> bool
    ensures { result ≡ places_coherent proxies.now unsent.now }
{
    let mut coherent = proxies.len() <= ReaderHead::MOST;
    let stride = stride_of(proxies.len(), unsent);
    for (i, proxy) in proxies.iter().enumerate() {
        let start = i * stride;
        let end = start + own_of(stride, *proxy);
        coherent &= place_coherent(*proxy, &unsent[start..end]);
    }
    coherent
}
