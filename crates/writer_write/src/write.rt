// A write that tells every reader, in place. The readers' records stand side by side: their proxies in one lent list of at most 64 places, their unsent rooms in
// one lent room, which has a stretch of as many numbers for each place; a reader's room is at the start of its stretch.
ghost use Rattle.numbers.specs.Promise.{Gives2};
ghost use Rattle.writer_send_buffer.specs.Samples.{handed};
ghost use Rattle.writer_write.specs.InPlace.{Wrote, write_of};
ghost use Rattle.writer_write.specs.Turns.{writer_of};

use crate::coherent::places_coherent;
use crate::put::put_all;
use numbers::{Answer, Refusal};
use rtps_reader_proxy::ReaderProxy;
use writer_send_buffer::{Admitted, Numbered, WriterSendBuffer};

// The writer's part of a write, where the readers are coherent; else it is refused.
pub fn admitted(
    flow: WriterSendBuffer,
    store: &mut [u8],
    lens: &mut [u64],
    payload: &[u8],
    opted: bool,
    coherent: bool,
) -> Admitted
    ensures { Gives2 result store.new lens.new (handed (writer_of coherent flow store.old lens.old payload.now opted)) }
{
    if !coherent {
        let numbered = Numbered {
            answer: Answer::refused(Refusal::Incoherent),
            ..Numbered::default()
        };
        return Admitted { numbered, flow };
    }
    flow.with_sample(store, lens, payload, opted)
}

// A write that tells every reader: the sample is stored, and its number joins each reader's unsent numbers. Where it is refused, nothing changes.
pub fn write(
    flow: &mut WriterSendBuffer,
    store: &mut [u8],
    lens: &mut [u64],
    payload: &[u8],
    opted: bool,
    proxies: &mut [ReaderProxy],
    unsent: &mut [u64],
) -> Numbered
    ensures { Wrote result flow.new store.new lens.new proxies.new unsent.new (write_of flow.old store.old lens.old payload.now opted proxies.old unsent.old) }
{
    let coherent = places_coherent(proxies, unsent);
    let m = admitted(*flow, store, lens, payload, opted, coherent);
    *flow = m.flow;
    put_all(proxies, unsent, m.numbered)
}
