// An ACKNACK: which numbers the reader has, and which it asks for.
ghost use Rattle.std.specs.Prelude.{◌≡◌, refl, not, [], ◌∷◌, length, take};
ghost use Rattle.numbers.specs.Answers.{answered};
ghost use Rattle.numbers.specs.Promise.{Gives1, Gives2};
ghost use Rattle.numbers.specs.Refusals.{row, answer_of};
ghost use Rattle.rtps_reader_proxy.specs.Reader.{staying};
ghost use Rattle.rtps_reader_proxy.specs.Acks.{not_acked, ack_nacked_of, ack_nacked_among, ack_rows, ack_leaves, Ackable, run_left, Stayable};

use crate::proxy::{ReaderProxy, room_for};
use joined_runs::join;
use number_sets::SequenceNumberSet;
use numbers::answers::{earlier, in_turn};
use numbers::{Answer, Refusal, SequenceNumber};
use rising::room;

// How many numbers found no place, and the proxy as the call leaves it. A C struct, so that the answer stands beside them.
#[repr(C)]
#[derive(Clone, Copy)]
pub struct AckNacked {
    pub answer: Answer,
    pub left_out: usize,
    pub proxy: ReaderProxy,
}

// The unsent numbers that an acknowledgement leaves: all if it is late, else those from b through last.
fn stay(unsent: &mut [u64], count: usize, a: u64, base: u64, last: u64) -> usize
    requires { Stayable count unsent.old last }
    ensures { Gives1 result unsent.new (run_left (length (staying last base a (take count unsent.old))) (length unsent.old) (staying last base a (take count unsent.old))) }
{
    let b = base.max(1);
    if b < a {
        return count;
    }
    let some = room::keep_from(unsent, count, b);
    // Mostly none is above `last`, and nothing is searched.
    match unsent[..some].last() {
        Some(n) if last < *n => room::keep_before(unsent, some, last + 1),
        _ => some,
    }
}

// The answer of an acknowledgement: 1, 3, 2, 12 or done.
fn ack_answer(coherent: bool, bits: bool, range: bool, ahead: bool) -> Answer
    ensures { result ≡ answer_of (row 1 refl (not coherent) ∷ row 3 refl bits ∷ row 2 refl range ∷ row 12 refl ahead ∷ []) }
{
    Answer::done()
        .unless(ahead, Refusal::Ahead)
        .unless(range, Refusal::Range)
        .unless(bits, Refusal::Bits)
        .unless(!coherent, Refusal::Incoherent)
}

impl ReaderProxy {
    // The answer of an acknowledgement: 1, 3, 2, 12 or done.
    pub fn check_ack(
        self,
        unsent: &[u64],
        gaps: &[u64],
        set: SequenceNumberSet,
        last: SequenceNumber,
    ) -> Answer
        ensures { result ≡ answer_of (ack_rows self unsent.now gaps.now set last) }
    {
        let asked = (set.count as usize).min(SequenceNumberSet::MOST_MEMBERS);
        let fits = room_for(unsent, self.unsent_count, self.unsent_cap, asked);
        let coherent = self.unsent_coherent(unsent) & self.gaps_coherent(gaps);
        let bits = SequenceNumberSet::MOST_BITS < set.count;
        let range = set.base.is_negative() | !last.within(SequenceNumber::LAST);
        let ahead = last.rank() + 1 < set.base.rank().max(1);
        ack_answer(fits & coherent, bits, range, ahead)
    }

    // An acknowledgement that is answered so: it is taken where that is 0, and else changes nothing.
    fn acknowledged(
        self,
        unsent: &mut [u64],
        gaps: &mut [u64],
        set: SequenceNumberSet,
        last: u64,
        answer: Answer,
    ) -> AckNacked
        requires { answer.number ≡ 0 → Ackable self unsent.old gaps.old set last }
        ensures { Gives2 result unsent.new gaps.new (answered answer (not_acked self unsent.old gaps.old) (ack_leaves set last self unsent.old gaps.old)) }
    {
        if !answer.is_done() {
            return AckNacked {
                answer,
                left_out: 0,
                proxy: self,
            };
        }
        let a = self.all_acked_before.rank();
        let base = set.base.rank();
        let low = a.max(base.max(1));
        let old = stay(unsent, self.unsent_count, a, base, last);
        let total = join(unsent, old, set, low, last);
        let left_out = total.saturating_sub(self.unsent_cap);
        AckNacked {
            answer: Answer::done(),
            left_out,
            proxy: ReaderProxy {
                all_acked_before: SequenceNumber::from_rank(low),
                unsent_count: total - left_out,
                gap_count: room::keep_from(gaps, self.gap_count, low),
                ..self
            },
        }
    }

    // An ACKNACK is taken, where `last` is the last number written.
    pub fn handle_ack_nack(
        self,
        unsent: &mut [u64],
        gaps: &mut [u64],
        set: SequenceNumberSet,
        last: SequenceNumber,
    ) -> AckNacked
        ensures { Gives2 result unsent.new gaps.new (ack_nacked_of set last self unsent.old gaps.old) }
    {
        let answer = self.check_ack(unsent, gaps, set, last);
        self.acknowledged(unsent, gaps, set, last.rank(), answer)
    }

    // The same as one of a step's calls: `beside` is what those are answered that are asked with it, `after` what the one is that comes after them. It is
    // taken where all of them are done, and else changes nothing.
    pub fn handle_ack_nack_among(
        self,
        unsent: &mut [u64],
        gaps: &mut [u64],
        set: SequenceNumberSet,
        last: SequenceNumber,
        beside: Answer,
        after: Answer,
    ) -> AckNacked
        ensures { Gives2 result unsent.new gaps.new (ack_nacked_among beside after set last self unsent.old gaps.old) }
    {
        let own = self.check_ack(unsent, gaps, set, last);
        let answer = in_turn(earlier(own, beside), after);
        self.acknowledged(unsent, gaps, set, last.rank(), answer)
    }
}
