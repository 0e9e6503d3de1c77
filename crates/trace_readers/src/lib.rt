// What a trace keeps, and the lines of its readers: what each is answered, and what is then kept.
#![tactic(auto)]

ghost use Rattle.std.specs.Prelude.{◌≡◌, ◌<◌, ◌≤◌};
ghost use Rattle.trace_readers.specs.Rooms.{unsent_at, gaps_at, words_at, samples_at};
ghost use Rattle.trace_readers.specs.Requests.{reader_of};

pub mod acks;
pub mod frags;
pub mod sent;
pub mod state;

use reader_list::Found;
use rtps_reader_proxy::ReaderProxy;
pub use state::{Followed, Trace};

// Whose record a reader that was looked for has. One that isn't there counts as the first: what comes before 11 is found by its record.
fn reader_of(found: Found) -> usize
    ensures { (result ≡ reader_of found) × (result < 2) }
{
    found.place.min(1)
}

// Where the parts of reader i start in the rooms. `i < 2` stays a clause: a struct with that fact would be taken apart in each of the definitions, which
// speak of numbers.
fn unsent_at(i: usize) -> usize
    requires { i < 2 }
    ensures { (result ≡ unsent_at i) × (result ≤ 1280) }
{
    Trace::UNSENT + i * ReaderProxy::MOST_UNSENT
}

fn words_at(i: usize) -> usize
    requires { i < 2 }
    ensures { (result ≡ words_at i) × (result ≤ 3328) }
{
    Trace::WORDS + i * ReaderProxy::FRAG_WORDS
}

fn gaps_at(i: usize) -> usize
    requires { i < 2 }
    ensures { (result ≡ gaps_at i) × (result ≤ 256) }
{
    i * ReaderProxy::GAPS
}

fn samples_at(i: usize) -> usize
    requires { i < 2 }
    ensures { (result ≡ samples_at i) × (result ≤ 528) }
{
    Trace::SAMPLES + i * ReaderProxy::FRAG_SAMPLES
}
