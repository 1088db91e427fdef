// The first mark, which is a parenthesis or a quote, looked for in eight bytes at once.
ghost use Rattle.std.specs.Prelude.{◌≡◌};
ghost use Rattle.tokens.specs.Tokens.{mark_of};
ghost use Rattle.finds.specs.Marks.{marks_of};

use super::runs::run_from;
use tokens::Cursor;

// The highest bit of each byte that is a mark. The parentheses differ in the lowest bit only.
fn marks(x: u64) -> u64
    ensures { result ≡ marks_of x }
{
    let texts = digits::unlike(x, 0x2222222222222222);
    let odd = x | 0x0101010101010101;
    let rounds = digits::unlike(odd, 0x2929292929292929);
    let others = texts & rounds;
    let high = others & digits::HIGHS;
    high ^ digits::HIGHS
}

// Where fewer than eight bytes are left, they are looked at one by one.
fn last_mark(s: &[u8], at: usize) -> usize
    ensures { result ≡ mark_of s.now at }
{
    (Cursor { at }).mark(s)
}

// The first mark at or behind a place; without one the file's length, or the place past it. The byte there is looked at first: marks often stand side by side.
pub fn mark_from(s: &[u8], at: usize) -> usize
    ensures { result ≡ mark_of s.now at }
{
    if s.len() <= at {
        return at;
    }
    let b = s[at];
    if b == b'"' || b == b'(' || b == b')' {
        return at;
    }
    match run_from(s, at, marks) {
        Ok(found) => found,
        Err(last) => last_mark(s, last),
    }
}
