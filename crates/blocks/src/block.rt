// Eight bytes at once: where nothing but hexadecimal digits and blanks stands, words are counted by their ends.
ghost use Rattle.std.specs.Prelude.{◌≡◌};
ghost use Rattle.blocks.specs.Blocks.{blanks_of, carry_of, words_of, block_of};

use digits::Base;

// A block of digits and blanks: how many words end in it, and how many digits stand at its end.
#[derive(Clone, Copy, Debug, PartialEq, Eq)]
pub struct Block {
    pub words: u32,
    pub tail: u32,
}

// 9 and 13 differ in one bit.
fn blanks(x: u64) -> u64
    ensures { result ≡ blanks_of x }
{
    let space = digits::unlike(x, 0x2020202020202020);
    let line = digits::unlike(x, 0x0a0a0a0a0a0a0a0a);
    let masked = x & 0xfbfbfbfbfbfbfbfb;
    let others = digits::unlike(masked, 0x0909090909090909);
    let both = space & line;
    let all = both & others;
    let high = all & digits::HIGHS;
    high ^ digits::HIGHS
}

// The highest bit of the lowest lane, where digits stand before the block.
fn carry_of(tail: u32) -> u64
    ensures { result ≡ carry_of tail }
{
    if tail == 0 { 0 } else { 128 }
}

// How many words end: a blank stands behind a digit.
fn words_in(none: u64, tail: u32) -> u32
    ensures { result ≡ words_of none tail }
{
    let digits = none ^ digits::HIGHS;
    let up = digits << 8;
    let carry = carry_of(tail);
    let before = up | carry;
    let ends = none & before;
    u64::count_ones(ends)
}

// The next eight bytes, where `tail` digits stand before them.
pub fn block_of(x: u64, tail: u32) -> Option<Block>
    ensures { result ≡ block_of x tail }
{
    let none = digits::marks(x, Base::Sixteen);
    let blank = blanks(x);
    if none != blank {
        return None;
    }
    if none == 0 {
        return None;
    }
    let first = u64::trailing_zeros(none);
    let lead = first / 8;
    let room = 8 - lead;
    if room < tail {
        return None;
    }
    let words = words_in(none, tail);
    let last = u64::leading_zeros(none);
    let behind = last / 8;
    Some(Block {
        words,
        tail: behind,
    })
}
