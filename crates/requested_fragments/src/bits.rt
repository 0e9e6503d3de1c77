// The bits of a sample's requested fragments, in words: fragment f, from 1 on, is the bit of worth 2 ^ ((f - 1) mod 64) in word (f - 1) div 64.
ghost use Rattle.std.specs.Prelude.{◌≡◌, not, ◌-◌, ◌/◌, ◌%◌, ◌^◌, ◌<◌, ◌≤◌, ◌↔◌, IsNone, IfSome, length, take};
ghost use Rattle.sets.specs.Sets.{has, empty};
ghost use Rattle.requested_fragments.specs.Words.{fragments_of, asking, not_asking, next_in};

use numbers::FragmentNumber;

fn worth(k: u64) -> u64
    requires { k < 64 }
    ensures { result ≡ 2 ^ k }
{
    1u64 << k
}

// The word of fragment f, and its bit there; 0 has none.
fn bit_of(f: u64) -> Option<(usize, u64)>
    ensures none { IsNone result ↔ (f ≡ 0) }
    ensures place { IfSome result (λ b. (b.0 ≡ (f - 1) / 64) × (b.1 ≡ (f - 1) % 64)) }
{
    let p = f.checked_sub(1)?;
    Some(((p / 64) as usize, p % 64))
}

// Whether fragment f is asked for, whatever its number.
pub fn asks(words: &[u64], f: u64) -> bool
    ensures { result ≡ has (fragments_of words.now) f }
{
    let Some((i, k)) = bit_of(f) else {
        return false;
    };
    if words.len() <= i {
        return false;
    }
    (words[i] >> k) % 2 == 1
}

// Fragment f is asked for; a number that the words have no bit for changes nothing.
pub fn ask(words: &mut [u64], f: u64)
    ensures { words.new ≡ asking f words.old }
{
    let Some((i, k)) = bit_of(f) else {
        return;
    };
    if i < words.len() {
        words[i] |= worth(k);
    }
}

// Fragment f is no more asked for, whatever its number.
pub fn unask(words: &mut [u64], f: u64)
    ensures { words.new ≡ not_asking f words.old }
{
    if !asks(words, f) {
        return;
    }
    if let Some((i, k)) = bit_of(f) {
        words[i] ^= worth(k);
    }
}

// Whether any fragment is asked for.
pub fn any(words: &[u64]) -> bool
    ensures { result ≡ not (empty (fragments_of words.now)) }
{
    !rising::run::all_zero(words)
}

// The smallest fragment from f on that the words ask for, bit by bit.
fn search_bits(words: &[u64], f: u64) -> Option<u64>
    requires { length words.now ≤ 64 }
    ensures { result ≡ next_in f words.now }
{
    for n in f..=FragmentNumber::TOP {
        if asks(words, n) {
            return Some(n);
        }
    }
    None
}

// The smallest fragment from f on that the first 64 words ask for.
pub fn next(words: &[u64], f: u64) -> Option<u64>
    ensures { result ≡ next_in f (take 64 words.now) }
{
    let end = FragmentNumber::WORDS.min(words.len());
    search_bits(&words[..end], f)
}
