// A hexadecimal number with a byte before it.
ghost use Rattle.std.specs.Prelude.{◌∷◌};
ghost use Rattle.figures.specs.Figures.{figures};
ghost use Rattle.putting.specs.Putting.{Whole};

use super::number::{hex_count, lay_figures};

// One test of the room for the byte and all figures.
pub fn lay_word(out: &mut [u8], at: usize, lead: u8, word: u32) -> usize
    ensures { Whole out.old at (lead ∷ figures 16 word) out.new result }
{
    let n = u64::from(word);
    let count = hex_count(n);
    let long = 1 + count;
    let next = at.saturating_add(long);
    if next <= out.len() {
        out[at] = lead;
        let from = at + 1;
        lay_figures::<16>(out, from, count, n);
    }
    next
}
