// Two number words of a file that is known to be good, in one look at eight bytes: where words are short, both stand there.
#![tactic(auto)]

ghost use Rattle.std.specs.Prelude.{◌≡◌, Some};
ghost use Rattle.twos.specs.Twos.{two_by, Inside, TwoAt};

use digits::Couple;

// A blank and eight bytes behind it.
const NEAR_BYTES: usize = 9;

// The values of two hexadecimal words, one behind the other, and the place behind the second.
#[derive(Clone, Copy, Debug, PartialEq, Eq)]
pub struct Two {
    pub first: u32,
    pub second: u32,
    pub next: usize,
}

fn two_of(s: &[u8], from: usize, c: Couple) -> Option<Two>
    requires { Inside s.now from c }
    ensures { result ≡ two_by s.now from (Some c) }
{
    let gap = c.gap as usize;
    let middle = from + gap;
    if !tokens::is_blank(s[middle]) {
        return None;
    }
    let end = c.end as usize;
    let next = from + end;
    let first = c.first as u32;
    let second = c.second as u32;
    Some(Two {
        first,
        second,
        next,
    })
}

pub fn known_two(s: &[u8], at: usize) -> Option<Two>
    ensures { TwoAt s.now at result }
{
    let size = s.len();
    if size < NEAR_BYTES {
        return None;
    }
    let last = size - NEAR_BYTES;
    if last < at {
        return None;
    }
    if !tokens::is_blank(s[at]) {
        return None;
    }
    let from = at + 1;
    let x = digits::bytes_at(s, from);
    let c = digits::couple_in(x)?;
    two_of(s, from, c)
}
