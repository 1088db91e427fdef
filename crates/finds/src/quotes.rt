// The end of a string, looked for in eight bytes at once.
ghost use Rattle.std.specs.Prelude.{◌≡◌, ◌+◌, ◌≤◌, length};
ghost use Rattle.tokens.specs.Tokens.{quote_of};
ghost use Rattle.finds.specs.Quotes.{quotes_of};

use super::runs::{place, run_from};

// The highest bit of each byte that is a quote.
fn quotes(x: u64) -> u64
    ensures { result ≡ quotes_of x }
{
    let others = digits::unlike(x, 0x2222222222222222);
    let high = others & digits::HIGHS;
    high ^ digits::HIGHS
}

// At most eight bytes are left.
fn last_quote(s: &[u8], i: usize) -> usize
    requires { length s.now ≤ i + 8 }
    ensures { result ≡ quote_of s.now i }
{
    if s.len() <= i {
        return i;
    }
    let x = digits::bytes_at(s, i);
    let here = quotes(x);
    if here == 0 { s.len() } else { place(i, here) }
}

// The first quote at or behind a place; without one the file's length, or the place past it.
pub fn quote_from(s: &[u8], at: usize) -> usize
    ensures { result ≡ quote_of s.now at }
{
    match run_from(s, at, quotes) {
        Ok(found) => found,
        Err(last) => last_quote(s, last),
    }
}
