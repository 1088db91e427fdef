// Words of a file, stored one behind the other.
ghost use Rattle.std.specs.Prelude.{◌≡◌, ◌+◌, ◌<◌, ◌≤◌, ◌^◌, replicate};
ghost use Rattle.std.proofs.lemmas.List.Edits.{sets};
ghost use Rattle.quick.specs.Quick.{known_of};
ghost use Rattle.rows.specs.Words.{words_at, Puts, TwoLeft};

use facts::Taken;
use stores::store;
use twos::{Two, known_two};

fn put_word(s: &[u8], at: usize, words: &mut [u32], k: usize) -> usize
    ensures { Puts (words_at s.now 1 at) k words.old words.new result }
{
    let v = quick::known_hex(s, at);
    store(words, k, v.value);
    v.next
}

// The next two words together, where as many are left and both are short.
fn two_left(s: &[u8], at: usize, left: u32) -> Option<Two>
    ensures { TwoLeft s.now at left result }
{
    if left < 2 {
        return None;
    }
    known_two(s, at)
}

// n words of the file, from place k on. One or two at a time, so no `for` counts them.
pub(crate) fn put_words(s: &[u8], at: usize, n: u32, words: &mut [u32], k: usize) -> usize
    requires { k ≤ 2 ^ 63 }
    ensures { Puts (words_at s.now n at) k words.old words.new result }
{
    let mut c = at;
    let mut left = n;
    let mut i = k;
    while 0 < left {
        if let Some(two) = two_left(s, c, left) {
            store(words, i, two.first);
            store(words, i + 1, two.second);
            c = two.next;
            i += 2;
            left -= 2;
        } else {
            c = put_word(s, c, words, i);
            i += 1;
            left -= 1;
        }
    }
    c
}

// n zeros from place k on.
pub(crate) fn put_zeros(words: &mut [u32], k: usize, n: usize)
    requires { k + n < 2 ^ 64 }
    ensures { words.new ≡ sets words.old k (replicate n 0) }
{
    for i in k..k + n {
        store(words, i, 0);
    }
}

// A word by its digits. By way of the loop, so that the compiler has `known_hex` there alone and puts it inside.
fn word_at(s: &[u8], at: usize) -> Taken<u32>
    ensures { result ≡ known_of s.now at }
{
    let mut word = [0];
    let next = put_words(s, at, 1, &mut word, 0);
    let [value] = word;
    Taken { value, next }
}

// Likewise, and most numbers that lead a row are one digit.
pub(crate) fn count_at(s: &[u8], at: usize) -> Taken<u32>
    ensures { result ≡ known_of s.now at }
{
    match quick::digit_hex(s, at) {
        Some(v) => v,
        None => word_at(s, at),
    }
}
