// A run of `count` numbers at the start of a slice of any length, the rest of which is room. A count past the room changes nothing.
// C lends a room and keeps its count in a record of its own, so the two come and go apart: a struct of both would be made and taken apart for each call.
ghost use Rattle.std.specs.Prelude.{◌≡◌, ◌+◌, ◌-◌, ◌<◌, ◌≤◌, length, take, get_or};
ghost use Rattle.std.specs.List.{slice_get};
ghost use Rattle.sets.specs.Sets.{has, smallest};
ghost use Rattle.numbers.specs.Promise.{Gives1};
ghost use Rattle.rising.specs.Runs.{place_of, holds_at, in_room, cut_out, opened_within, put_in, over, removed, from_on, before, insert_within, newest, run_with};

use crate::run;

// The run.
fn held(s: &[u64], count: usize) -> &[u64]
    ensures { result.now ≡ take count s.now }
{
    &s[..count.min(s.len())]
}

// Whether n is in the run.
pub fn holds(s: &[u64], count: usize, n: u64) -> bool
    ensures { result ≡ has (take count s.now) n }
{
    run::contains(held(s, count), n)
}

// The first number of the run from n on, if there is one.
pub fn first_from(s: &[u64], count: usize, n: u64) -> Option<u64>
    ensures { result ≡ slice_get (from_on n (take count s.now)) 0 }
{
    let held = held(s, count);
    held.get(run::place(held, n)).copied()
}

// The run without the k numbers from i on.
pub fn cut(s: &mut [u64], count: usize, i: usize, k: usize) -> usize
    ensures { Gives1 result s.new (in_room (cut_out i k) count s.old) }
{
    if (s.len() < count) | (count <= i) {
        return count;
    }
    let gone = k.min(count - i);
    run::drop_front(&mut s[i..count], gone);
    count - gone
}

// The run with k zeros from i on; what finds no room at the end is gone.
pub fn open(s: &mut [u64], count: usize, i: usize, k: usize) -> usize
    ensures { Gives1 result s.new (in_room (opened_within (length s.old) i k) count s.old) }
{
    if s.len() < count {
        return count;
    }
    let at = i.min(count);
    let end = count + k.min(s.len() - count);
    run::lift(&mut s[at..end], k);
    end
}

// The run without n.
pub fn remove(s: &mut [u64], count: usize, n: u64) -> usize
    ensures { Gives1 result s.new (in_room (removed n) count s.old) }
{
    let held = held(s, count);
    let i = run::place(held, n);
    if run::holds_at(held, i, n) {
        cut(s, count, i, 1)
    } else {
        count
    }
}

// The run from n on. (The hints on inlining here, at `insert_newest` and at `join_newest`: measured, each call on a record takes fewer instructions so.)
#[inline]
pub fn keep_from(s: &mut [u64], count: usize, n: u64) -> usize
    ensures { Gives1 result s.new (in_room (from_on n) count s.old) }
{
    let k = run::place(held(s, count), n);
    cut(s, count, 0, k)
}

// The run before n.
pub fn keep_before(s: &mut [u64], count: usize, n: u64) -> usize
    ensures { Gives1 result s.new (in_room (before n) count s.old) }
{
    let i = run::place(held(s, count), n);
    cut(s, count, i, count)
}

// The run with n at place i, where it has room.
fn put(s: &mut [u64], count: usize, i: usize, n: u64) -> usize
    requires { (i ≤ count) × (count < length s.old) }
    ensures { (result ≡ count + 1) × (s.new ≡ over s.old count (put_in i n (take count s.old))) }
{
    let end = open(s, count, i, 1);
    s[i] = n;
    end
}

// n joins the run, where there is room.
pub fn insert(s: &mut [u64], count: usize, n: u64) -> usize
    ensures { Gives1 result s.new (in_room (insert_within (length s.old) n) count s.old) }
{
    let held = held(s, count);
    let i = run::place(held, n);
    if run::holds_at(held, i, n) {
        count
    } else if count < s.len() {
        put(s, count, i, n)
    } else {
        count
    }
}

// n joins the run. Where there is no room the smallest goes.
#[inline(never)]
#[tactic(auto, using(crate::proofs::Inserts::place_le))]
pub fn insert_newest(s: &mut [u64], count: usize, n: u64) -> usize
    ensures { Gives1 result s.new (in_room (newest (length s.old) n) count s.old) }
{
    if count < s.len() {
        return insert(s, count, n);
    }
    if s.len() < count {
        return count;
    }
    let i = run::place(s, n);
    if (i == 0) | run::holds_at(s, i, n) {
        return count;
    }
    run::drop_front(&mut s[..i], 1);
    s[i - 1] = n;
    count
}

// The last of the `count` numbers. Where there is none, 0 stands there, as in the definition `run_with`: unused room is zero.
fn last_of(s: &[u64], count: usize) -> u64
    ensures { result ≡ get_or s.now (count - 1) 0 }
{
    s.get(count.saturating_sub(1)).copied().unwrap_or(0)
}

// n joins the run; where there is no room the smallest goes. A new number is above all that are held, and stands after them: nothing is searched.
#[inline]
pub fn join_newest(s: &mut [u64], count: usize, n: u64) -> usize
    ensures { Gives1 result s.new (run_with n count s.old) }
{
    if (count < s.len()) & (last_of(s, count) < n) {
        s[count] = n;
        return count + 1;
    }
    insert_newest(s, count, n)
}
