// The digits at the start of eight bytes, all looked at at once and with no branch: which digit comes next can't be foreseen.
ghost use Rattle.std.specs.Prelude.{◌≡◌, ◌+◌, ◌*◌, ◌^◌, ◌≤◌, ◌<◌};
ghost use Rattle.digits.specs.Lanes.{figures_of, letters_of, shown_of, marks_of, values_of, paired_of, folded_of, base_of, Grouped};

use super::HIGHS;

// The number that digits are read to.
#[derive(Clone, Copy, Debug, PartialEq, Eq)]
pub enum Base {
    Ten,
    Sixteen,
}

// The number that the digits write, and how many they are.
#[derive(Clone, Copy, Debug, PartialEq, Eq)]
pub struct Group {
    pub value: u64,
    pub count: u32,
}

impl Base {
    fn number(self) -> u64
        ensures { result ≡ base_of self }
    {
        match self {
            Base::Ten => 10,
            Base::Sixteen => 16,
        }
    }
}

fn figures(low: u64) -> u64
    requires { low ≤ 0x7f7f7f7f7f7f7f7f }
    ensures { result ≡ figures_of low }
{
    let from = low + 0x5050505050505050;
    let past = low + 0x4646464646464646;
    from ^ past
}

fn letters(low: u64) -> u64
    requires { low ≤ 0x7f7f7f7f7f7f7f7f }
    ensures { result ≡ letters_of low }
{
    let small = low | 0x2020202020202020;
    let from = small + 0x1f1f1f1f1f1f1f1f;
    let past = small + 0x1919191919191919;
    from ^ past
}

// Where digits stand.
fn shown(low: u64, base: Base) -> u64
    requires { low ≤ 0x7f7f7f7f7f7f7f7f }
    ensures { result ≡ shown_of base low }
{
    let f = figures(low);
    match base {
        Base::Ten => f,
        Base::Sixteen => {
            let l = letters(low);
            f | l
        }
    }
}

// Where none stands.
pub fn marks(x: u64, base: Base) -> u64
    ensures { result ≡ marks_of base x }
{
    let low = x & 0x7f7f7f7f7f7f7f7f;
    let is = shown(low, base);
    let high = is & HIGHS;
    let none = high ^ HIGHS;
    let above = x & HIGHS;
    none | above
}

pub(crate) fn values(x: u64, base: Base) -> u64
    ensures { result ≡ values_of base x }
{
    let low = x & 0x0f0f0f0f0f0f0f0f;
    match base {
        Base::Ten => low,
        Base::Sixteen => {
            let letter = x & 0x4040404040404040;
            let one = letter / 64;
            let more = one * 9;
            low + more
        }
    }
}

// Neighbouring lanes as one number to the base; `apart` is 2 to the bits of a lane.
fn paired(y: u64, apart: u64, mask: u64, base: u64) -> u64
    requires { (0 < apart) × (mask * base + mask < 2 ^ 64) }
    ensures { result ≡ paired_of apart mask base y }
{
    let first = y & mask;
    let shifted = y / apart;
    let second = shifted & mask;
    first * base + second
}

// Eight digits as one number: neighbours first, then pairs, then fours.
pub(crate) fn folded(y: u64, base: u64) -> u64
    requires { base ≤ 16 }
    ensures { result ≡ folded_of base y }
{
    let pairs = paired(y, 256, 0x00ff00ff00ff00ff, base);
    let square = base * base;
    let fours = paired(pairs, 65536, 0x0000ffff0000ffff, square);
    let power = square * square;
    paired(fours, 4294967296, 0xffffffff, power)
}

pub fn group_of(x: u64, base: Base) -> Group
    ensures { Grouped base x result }
{
    let none = marks(x, base);
    let zeros = u64::trailing_zeros(none);
    let count = zeros / 8;
    if count == 0 {
        return Group { value: 0, count };
    }
    let all = values(x, base);
    let bits = count * 8;
    let up = 64 - bits;
    let read = all << up;
    let value = folded(read, base.number());
    Group { value, count }
}
