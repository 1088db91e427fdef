// The usual number word in one look at its bytes: digits, and then the word ends. Whatever else stands there is left to the steps that take the token apart.
ghost use Rattle.std.specs.Prelude.{◌≡◌, ◌+◌, ◌<◌, ◌^◌};
ghost use Rattle.quick.specs.Quick.{hexes_from, near_hexes, quick_by, quick_of, figure_of, digit_hex, known_by, known_of};

use digits::Hexes;
use facts::Taken;
use tokens::Cursor;

// Most digits of a whole number.
const HEX_BYTES: usize = 8;

// A blank and as many bytes behind it.
const NEAR_BYTES: usize = 9;

// A blank, a digit and the byte behind it.
const DIGIT_BYTES: usize = 3;

// The digits from a place on, at most 8. Two calls, so that the compiler sees the length of a whole window.
fn hexes_from(s: &[u8], start: usize) -> Hexes
    ensures { result ≡ hexes_from s.now start }
{
    let size = s.len();
    if size <= start {
        return Hexes { value: 0, count: 0 };
    }
    let rest = size - start;
    if rest < HEX_BYTES {
        return digits::hexes_in(&s[start..]);
    }
    let end = start + HEX_BYTES;
    digits::hexes_in(&s[start..end])
}

// The digits behind one blank, where 8 bytes stand there and the word seems to end behind the digits; else none, which is a count of 0, as `hexes_in` answers it. So words mostly stand, and it takes no loop.
fn near_hexes(s: &[u8], at: usize) -> Hexes
    ensures { result ≡ near_hexes s.now at }
{
    let size = s.len();
    if size < NEAR_BYTES {
        return Hexes { value: 0, count: 0 };
    }
    let last = size - NEAR_BYTES;
    if last < at {
        return Hexes { value: 0, count: 0 };
    }
    let blank = tokens::is_blank(s[at]);
    if blank {
        let from = at + 1;
        let to = from + HEX_BYTES;
        let x = digits::bytes_at(s, from);
        // The guess comes before the count and is what is answered: the next word's place waits for it, it is known much sooner, and of two equal values the compiler keeps the older.
        let guess = digits::end_in(x);
        let h = digits::hexes_in(&s[from..to]);
        let count = h.count;
        if guess == count {
            let value = h.value;
            return Hexes {
                value,
                count: guess,
            };
        }
        return Hexes { value: 0, count: 0 };
    }
    Hexes { value: 0, count: 0 }
}

// The word of these digits, if it ends behind them.
fn quick_of(s: &[u8], start: usize, h: Hexes) -> Option<Taken<u32>>
    requires { start + h.count < 2 ^ 64 }
    ensures { result ≡ quick_by s.now start h }
{
    let n = h.count;
    if n == 0 {
        return None;
    }
    let next = start + n;
    let ends = (Cursor { at: next }).ends_word(s);
    if ends {
        let value = h.value;
        return Some(Taken { value, next });
    }
    None
}

pub fn quick_hex(s: &[u8], at: usize) -> Option<Taken<u32>>
    ensures { result ≡ quick_of s.now at }
{
    let near = near_hexes(s, at);
    if 0 < near.count {
        let from = at + 1;
        return quick_of(s, from, near);
    }
    let start = (Cursor { at }).start(s);
    let h = hexes_from(s, start);
    quick_of(s, start, h)
}

// The decimal digit that a byte is.
fn figure_of(b: u8, next: usize) -> Option<Taken<u32>>
    ensures { result ≡ figure_of b next }
{
    match b {
        b'0'..=b'9' => {
            let value = u32::from(b - b'0');
            Some(Taken { value, next })
        }
        _ => None,
    }
}

// A word of one decimal digit behind one blank: how the number that leads a row mostly stands.
pub fn digit_hex(s: &[u8], at: usize) -> Option<Taken<u32>>
    ensures { result ≡ digit_hex s.now at }
{
    let size = s.len();
    if size < DIGIT_BYTES {
        return None;
    }
    let last = size - DIGIT_BYTES;
    if last < at {
        return None;
    }
    let blank = tokens::is_blank(s[at]);
    if blank {
        let from = at + 1;
        let behind = at + 2;
        let ends = (Cursor { at: behind }).ends_word(s);
        if ends {
            return figure_of(s[from], behind);
        }
        return None;
    }
    None
}

fn known_of(start: usize, h: Hexes) -> Taken<u32>
    requires { start + h.count < 2 ^ 64 }
    ensures { result ≡ known_by start h }
{
    let value = h.value;
    let next = start + h.count;
    Taken { value, next }
}

// The hexadecimal word of a file that is known to be good: whether it ends behind its digits is not asked.
pub fn known_hex(s: &[u8], at: usize) -> Taken<u32>
    ensures { result ≡ known_of s.now at }
{
    let near = near_hexes(s, at);
    if 0 < near.count {
        let from = at + 1;
        return known_of(from, near);
    }
    let start = (Cursor { at }).start(s);
    let h = hexes_from(s, start);
    known_of(start, h)
}
