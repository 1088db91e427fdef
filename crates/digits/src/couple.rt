// Two hexadecimal numbers among eight bytes, found together: the second does not wait for the first.
ghost use Rattle.std.specs.Prelude.{◌≡◌, ◌≤◌};
ghost use Rattle.digits.specs.Couples.{ends_of, end_in, nibbles_of, couple_by, couple_of};

use super::HIGHS;
use super::group::{Base, folded, marks, values};

// Both numbers, the place of the byte between them and that of the byte behind the second.
#[derive(Clone, Copy, Debug, PartialEq, Eq)]
pub struct Couple {
    pub first: u64,
    pub second: u64,
    pub gap: u32,
    pub end: u32,
}

// Where words end, if nothing but digits and bytes that end words stand there. It is known sooner than `marks`, by which it is then checked.
fn ends(x: u64) -> u64
    ensures { result ≡ ends_of x }
{
    let sixth = x << 1;
    let fourth = x << 3;
    let either = sixth | fourth;
    let high = either & HIGHS;
    high ^ HIGHS
}

// The place of the first of these ends, 8 where there is none.
pub fn end_in(x: u64) -> usize
    ensures { result ≡ end_in x }
{
    let found = ends(x);
    let zeros = u64::trailing_zeros(found);
    let place = zeros / 8;
    place as usize
}

fn nibbles(x: u64) -> u64
    ensures { result ≡ nibbles_of x }
{
    let all = values(x, Base::Sixteen);
    let low = all & 0x0f0f0f0f0f0f0f0f;
    folded(low, 16)
}

fn couple_of(x: u64, gap: u32, end: u32) -> Option<Couple>
    requires { (gap ≤ 8) × (end ≤ 8) }
    ensures { result ≡ couple_by (nibbles_of x) gap end }
{
    if gap < 1 {
        return None;
    }
    if 7 < end {
        return None;
    }
    let from = gap + 1;
    if end <= from {
        return None;
    }
    let all = nibbles(x);
    let four = 4 * gap;
    let behind = 32 - four;
    let first = all >> behind;
    let more = 4 * end;
    let rest = 32 - more;
    let part = all >> rest;
    let count = end - from;
    let bits = 4 * count;
    let size: u64 = 1 << bits;
    let second = part % size;
    Some(Couple {
        first,
        second,
        gap,
        end,
    })
}

pub fn couple_in(x: u64) -> Option<Couple>
    ensures { result ≡ couple_of x }
{
    let found = ends(x);
    if found == 0 {
        return None;
    }
    let below = found - 1;
    let others = found & below;
    // Longer words: asked first, since they are as common.
    if others == 0 {
        return None;
    }
    let zeros = u64::trailing_zeros(found);
    let gap = zeros / 8;
    let more = u64::trailing_zeros(others);
    let end = more / 8;
    let exact = marks(x, Base::Sixteen);
    if exact == found {
        return couple_of(x, gap, end);
    }
    None
}
