// The answer of a step of several calls: the first of theirs, in the order of the table.
ghost use Rattle.std.specs.Prelude.{◌≡◌, map};
ghost use Rattle.numbers.specs.Answers.{is_before, earlier, in_turn};
ghost use Rattle.numbers.specs.Refusal.{refusal_number};

use crate::answer::Answer;
use crate::refusal::{Numbered, Refusal};

// Whether x comes before y in the order of a table.
#[tactic(auto, unfolding(crate::specs::Answers::is_before))]
fn is_before(order: &[Refusal], x: u32, y: u32) -> bool
    ensures { result ≡ is_before (map refusal_number order.now) x y }
{
    for by in order {
        let n = by.number();
        if x == n {
            return true;
        }
        if y == n {
            return false;
        }
    }
    true
}

pub fn earlier(a: Answer, b: Answer) -> Answer
    ensures { result ≡ earlier a b }
{
    if b.is_done() {
        a
    } else if a.is_done() {
        b
    } else if is_before(&Answer::ORDER, a.number, b.number) {
        a
    } else {
        b
    }
}

// Of two calls of which the second isn't made where the first is refused.
pub fn in_turn(a: Answer, b: Answer) -> Answer
    ensures { result ≡ in_turn a b }
{
    if a.is_done() { b } else { a }
}
