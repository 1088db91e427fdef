// A decimal number with a byte before it.
ghost use Rattle.std.specs.Prelude.{◌≡◌, ◌∷◌, length};
ghost use Rattle.figures.specs.Signed.{sign_text, decimal_text};
ghost use Rattle.putting.specs.Putting.{Whole};

use super::number::{decimal_count, lay_figures};
use decimals::magnitude;

fn sign_count(z: i64) -> usize
    ensures { result ≡ length (sign_text z) }
{
    if z < 0 { 1 } else { 0 }
}

// One test of the room for the byte, the sign and all figures.
pub fn lay_signed(out: &mut [u8], at: usize, lead: u8, z: i64) -> usize
    ensures { Whole out.old at (lead ∷ decimal_text z) out.new result }
{
    let n = magnitude(z);
    let count = decimal_count(n);
    let before = 1 + sign_count(z);
    let long = before + count;
    let next = at.saturating_add(long);
    if next <= out.len() {
        // The first figure is laid over the sign of a number that has none.
        let sign = at + 1;
        out[at] = lead;
        out[sign] = b'-';
        let from = at + before;
        lay_figures::<10>(out, from, count, n);
    }
    next
}
