// Words, judged and not kept; and so many things one behind the other, whatever they are.
ghost use Rattle.std.specs.Prelude.{ℕ, length};
ghost use Rattle.tokens.specs.Listed.{tokens_from};
ghost use Rattle.layout.specs.Reading.{Reader, rows_of};
ghost use Rattle.bodies.specs.Bodies.{LooseAt, forget, hex_unit, pair_unit};

use super::hexes::blocks_past;
use numbers::Sort;
use pairs::quick_pair;
use quick::quick_hex;
use spots::Bad;
use steps::{number_at, pair_at};

fn hex_past(s: &[u8], at: usize) -> Result<usize, Bad>
    ensures { LooseAt s.now at result (hex_unit (length s.now) (tokens_from s.now at)) }
{
    if let Some(word) = quick_hex(s, at) {
        return Ok(word.next);
    }
    let word = number_at(s, at, Sort::Hexadecimal)?;
    Ok(word.next)
}

// What the coordinate says is not asked where its shape is enough.
fn decimal_past(s: &[u8], at: usize) -> Result<usize, Bad>
    ensures { LooseAt s.now at result (pair_unit (length s.now) (tokens_from s.now at)) }
{
    if let Some(next) = quick_pair(s, at) {
        return Ok(next);
    }
    let word = pair_at(s, at)?;
    Ok(word.next)
}

// n things one behind the other. `one` passes a single thing, and `unit` is what that reads.
pub(crate) fn each_past<F: Fn(usize) -> Result<usize, Bad>>(
    s: &[u8],
    at: usize,
    n: usize,
    one: F,
) -> Result<usize, Bad>
    ghost unit: { Reader Unit }
    requires ready { F.IsAlwaysCallable one }
    requires reads { (c : ℕ) (p : _) → F.post one c p → LooseAt s.now c p (unit (tokens_from s.now c)) }
    ensures { LooseAt s.now at result (forget (rows_of (length s.now) unit n (tokens_from s.now at))) }
{
    let mut c = at;
    for _ in 0..n {
        c = one(c)?;
    }
    Ok(c)
}

pub(crate) fn decimals_past(s: &[u8], at: usize, n: usize) -> Result<usize, Bad>
    ensures { LooseAt s.now at result (forget (rows_of (length s.now) (pair_unit (length s.now)) n (tokens_from s.now at))) }
{
    each_past(s, at, n, |c| decimal_past(s, c))
}

// Word by word: blocks pay only where the words are many.
pub(crate) fn hexes_each(s: &[u8], at: usize, n: usize) -> Result<usize, Bad>
    ensures { LooseAt s.now at result (forget (rows_of (length s.now) (hex_unit (length s.now)) n (tokens_from s.now at))) }
{
    each_past(s, at, n, |c| hex_past(s, c))
}

// In blocks as far as these go, then word by word.
pub(crate) fn hexes_past(s: &[u8], at: usize, n: usize) -> Result<usize, Bad>
    ensures { LooseAt s.now at result (forget (rows_of (length s.now) (hex_unit (length s.now)) n (tokens_from s.now at))) }
{
    let rest = blocks_past(s, at, n);
    hexes_each(s, rest.next, rest.left)
}
