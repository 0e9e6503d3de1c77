// The second walk: the new number joins each reader's unsent numbers. Nothing is checked again: the places are known to be coherent.
ghost use Rattle.numbers.specs.Promise.{Gives2};
ghost use Rattle.writer_write.specs.Turns.{put_in_all};

use crate::places::{own_of, stride_of};
use rising::room;
use rtps_reader_proxy::ReaderProxy;
use writer_send_buffer::Numbered;

// Every reader is told of the number that was given, if one was. A free place has no room, and stays as it is.
pub fn put_all(proxies: &mut [ReaderProxy], unsent: &mut [u64], numbered: Numbered) -> Numbered
    ensures { Gives2 result proxies.new unsent.new (put_in_all numbered proxies.old unsent.old) }
{
    if !numbered.answer.is_done() {
        return numbered;
    }
    let n = numbered.number.rank();
    // Not by `chunks_mut`: a stretch may have no place at all, and `chunks_mut` asks for one.
    let stride = stride_of(proxies.len(), unsent);
    for (i, proxy) in proxies.iter_mut().enumerate() {
        let start = i * stride;
        let end = start + own_of(stride, *proxy);
        proxy.unsent_count = room::join_newest(&mut unsent[start..end], proxy.unsent_count, n);
    }
    numbered
}
