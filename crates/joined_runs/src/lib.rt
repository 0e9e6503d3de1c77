// The members of a set of sequence numbers join a run in lent room. The run is a room and a count, as in `rising::room`.
#![tactic(auto)]

ghost use Rattle.std.specs.Prelude.{◌≡◌, ◌≤◌, length, take};
ghost use Rattle.numbers.specs.Promise.{Gives1};
ghost use Rattle.rising.specs.Runs.{in_room};
ghost use Rattle.number_sets.specs.Bits.{members};
ghost use Rattle.number_sets.specs.Calls.{sequence_set};
ghost use Rattle.joined_runs.specs.Joined.{first_asked, joined_in, with_members, laid_in, grown, resized, Within, Listable};

use number_sets::SequenceNumberSet;
use rising::{room, run};

// The first member of a set from lo through hi, unless none joins.
fn first_asked(set: SequenceNumberSet, lo: u64, hi: u64) -> Option<u64>
    ensures { result ≡ first_asked set lo hi }
{
    if SequenceNumberSet::MOST_BITS < set.count || set.base.is_negative() {
        return None;
    }
    set.next_rank(lo, hi)
}

// The numbers from place p up to place q get room for n: the last of them go, or zeros come after them.
fn resize(s: &mut [u64], count: usize, p: usize, q: usize, n: usize) -> usize
    requires { Within p q count s.old × (n ≤ 256) }
    ensures { Gives1 result s.new (in_room (resized (length s.old) p q n) count s.old) }
{
    let old = q - p;
    if n < old {
        room::cut(s, count, p + n, old - n)
    } else {
        room::open(s, count, q, n - old)
    }
}

// The members of a set stand in place of the numbers from place p up to place q, which have joined it: if there are as many, they stand there already.
fn replace(s: &mut [u64], count: usize, p: usize, q: usize, set: SequenceNumberSet) -> usize
    requires { Within p q count s.old × Listable set }
    ensures { Gives1 result s.new (laid_in count s.old (grown p q (members (sequence_set set)) (take count s.old))) }
{
    let n = set.size();
    if n == q - p {
        return count;
    }
    resize(s, count, p, q, n);
    set.list_members(&mut s[p..]);
    p + n + (count - q)
}

// The numbers of the run from `first` on that lie in the set's bits join it, and its members take their place.
fn join_some(s: &mut [u64], count: usize, set: SequenceNumberSet, first: u64) -> usize
    requires { (count ≤ length s.old) × Listable set }
    ensures { Gives1 result s.new (laid_in count s.old (with_members first set (take count s.old))) }
{
    let base = set.base.rank();
    let p = run::place(&s[..count], first);
    let q = p + run::place(&s[p..count], base + (set.count as u64));
    let all = set.joined(&s[p..q]);
    replace(s, count, p, q, all)
}

// The members of a set from lo through hi join the run. The smallest stay, as many as the room holds; how many there were is returned.
pub fn join(s: &mut [u64], count: usize, set: SequenceNumberSet, lo: u64, hi: u64) -> usize
    ensures { Gives1 result s.new (joined_in set lo hi count s.old) }
{
    if s.len() < count {
        return count;
    }
    let Some(first) = first_asked(set, lo, hi) else {
        return count;
    };
    join_some(s, count, set.cut(lo, hi), first)
}
