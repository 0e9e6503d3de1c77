// The unsent numbers: new samples join, sent ones go.
ghost use Rattle.std.specs.Prelude.{◌≡◌, ℕ, refl, [], ◌∷◌, not, ◌&&◌};
ghost use Rattle.std.specs.Fn.{FnOnceReturnsAtMut};
ghost use Rattle.numbers.specs.Cursor.{cursor_at};
ghost use Rattle.numbers.specs.Promise.{Gives1, Gives2};
ghost use Rattle.numbers.specs.Refusals.{row, answer_of};
ghost use Rattle.rtps_reader_proxy.specs.Parts.{count_unsent};
ghost use Rattle.rtps_reader_proxy.specs.Record.{unsent_coherent, changed};
ghost use Rattle.rtps_reader_proxy.specs.Unsent.{notified_of, marked_sent_of, removed_before_of, taken_of, next_unsent_of};

use crate::proxy::{Changed, ReaderProxy, room_for};
use numbers::{Answer, Cursor, NextNumber, Refusal, SequenceNumber};
use rising::{room, run};

// How many were taken, and the proxy as that leaves it. A C struct, so that the answer stands beside them.
#[repr(C)]
#[derive(Clone, Copy)]
pub struct Taken {
    pub answer: Answer,
    pub count: usize,
    pub proxy: ReaderProxy,
}

impl ReaderProxy {
    // The answer of a call that is lent the unsent room, where `fits` says whether what joins has room: 1, 2 or done.
    fn check_unsent(self, unsent: &[u64], fits: bool, range: bool) -> Answer
        ensures { result ≡ answer_of (row 1 refl (not (fits && unsent_coherent self unsent.now)) ∷ row 2 refl range ∷ []) }
    {
        Answer::done().unless(range, Refusal::Range).unless(
            !(fits & self.unsent_coherent(unsent)),
            Refusal::Incoherent,
        )
    }

    // What `change` makes of the unsent numbers, where the call is not refused: it tells how many there are then.
    fn change_unsent<F: FnOnce(&mut [u64]) -> usize>(
        self,
        unsent: &mut [u64],
        answer: Answer,
        change: F,
    ) -> Changed
        requires { F.IsAlwaysCallable change }
        ensures refused { (answer.number ≡ 0 → ⊥) → (result ≡ changed answer self) × (unsent.new ≡ unsent.old) }
        ensures done { answer.number ≡ 0 → (n : ℕ) × (result ≡ changed answer (count_unsent n self)) × FnOnceReturnsAtMut F.FnOnce change unsent.old n unsent.new }
    {
        if !answer.is_done() {
            return self.unchanged(answer);
        }
        Changed {
            answer,
            proxy: ReaderProxy {
                unsent_count: change(unsent),
                ..self
            },
        }
    }

    // The first unsent number at or after the cursor, and the cursor past it.
    pub fn next_unsent_change(self, unsent: &[u64], at: Cursor) -> NextNumber
        ensures { result ≡ next_unsent_of at self unsent.now }
    {
        let next = room::first_from(unsent, self.unsent_count, at.from);
        let answer = Answer::found(self.unsent_coherent(unsent), next.is_none());
        NextNumber::of(answer, next.unwrap_or(0))
    }

    // The first of all, found at the room's start.
    pub fn first_unsent_change(self, unsent: &[u64]) -> NextNumber
        ensures { result ≡ next_unsent_of (cursor_at 0) self unsent.now }
    {
        self.next_unsent_change(unsent, Cursor::default())
    }

    // A new sample: its number joins the unsent numbers; above the cap the smallest go.
    pub fn notify_new_cache_change(self, unsent: &mut [u64], n: SequenceNumber) -> Changed
        ensures { Gives1 result unsent.new (notified_of n self unsent.old) }
    {
        let fits = room_for(unsent, self.unsent_count, self.unsent_cap, 1);
        let answer = self.check_unsent(unsent, fits, !n.is_sample());
        self.change_unsent(unsent, answer, |room| {
            room::join_newest(room, self.unsent_count, n.rank())
        })
    }

    // A number was sent, as data or as a gap.
    pub fn mark_change_sent(self, unsent: &mut [u64], n: SequenceNumber) -> Changed
        ensures { Gives1 result unsent.new (marked_sent_of n self unsent.old) }
    {
        let answer = self.check_unsent(unsent, true, false);
        self.change_unsent(unsent, answer, |room| {
            room::remove(room, self.unsent_count, n.rank())
        })
    }

    pub fn remove_from_unsent_set_all_before(self, unsent: &mut [u64], n: SequenceNumber) -> Changed
        ensures { Gives1 result unsent.new (removed_before_of n self unsent.old) }
    {
        let answer = self.check_unsent(unsent, true, false);
        self.change_unsent(unsent, answer, |room| {
            room::keep_from(room, self.unsent_count, n.rank())
        })
    }

    // The first unsent numbers, as many as `out` has room for, are taken and marked sent.
    pub fn take_unsent(self, unsent: &mut [u64], out: &mut [u64]) -> Taken
        ensures { Gives2 result unsent.new out.new (taken_of self unsent.old out.old) }
    {
        let answer = self.check_unsent(unsent, true, false);
        if !answer.is_done() {
            return Taken {
                answer,
                count: 0,
                proxy: self,
            };
        }
        let count = self.unsent_count.min(out.len());
        run::copy(&unsent[..count], out);
        Taken {
            answer,
            count,
            proxy: ReaderProxy {
                unsent_count: room::cut(unsent, self.unsent_count, 0, count),
                ..self
            },
        }
    }
}
