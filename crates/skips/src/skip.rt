// A section that is stepped over.
ghost use Rattle.std.specs.Prelude.{length};
ghost use Rattle.tokens.specs.Listed.{tokens_from};
ghost use Rattle.layout.specs.Reading.{skip};
ghost use Rattle.spots.specs.Pasts.{PastAt};

use finds::{mark_from, quote_from};
use layout::Refusal;
use spots::Bad;

// To behind the `)` that closes the section; `at` is behind its id. d parentheses are open inside it. What stands at a mark and is no parenthesis is a quote.
// No `for`: it goes from one mark to the next, and over a string at once.
pub fn skip_from(s: &[u8], at: usize) -> Result<usize, Bad>
    ensures { PastAt s.now at result (skip (length s.now) 0 (tokens_from s.now at)) }
{
    let size = s.len();
    let mut c = at;
    let mut d: u32 = 0;
    loop {
        let m = mark_from(s, c);
        if size <= m {
            return Err(Bad {
                why: Refusal::Grammar,
                offset: size,
            });
        }
        let b = s[m];
        let inside = m + 1;
        if b == b'(' {
            let deeper = d + 1;
            if sizes::DEPTH <= deeper {
                return Err(Bad {
                    why: Refusal::Depth,
                    offset: m,
                });
            }
            d = deeper;
            c = inside;
            continue;
        }
        if b == b')' {
            if d == 0 {
                return Ok(inside);
            }
            d -= 1;
            c = inside;
            continue;
        }
        let end = quote_from(s, inside);
        if size <= end {
            return Err(Bad {
                why: Refusal::Grammar,
                offset: m,
            });
        }
        c = end + 1;
    }
}
