// Hexadecimal words and coordinates, one behind the other. Where they have no room only the place behind them is told, since who writes has measured.
ghost use Rattle.std.specs.Prelude.{◌≡◌, ◌∷◌};
ghost use Rattle.figures.specs.Signed.{coordinate_text};
ghost use Rattle.putting.specs.Putting.{Laid, words_bytes};

use putting::{lay_signed, lay_word};

// `lead` stands before the first, a blank before each other.
pub(crate) fn lay_words(out: &mut [u8], at: usize, lead: u8, words: &[u32]) -> usize
    ensures { Laid out.old at (words_bytes lead words.now) out.new result }
{
    let mut c = at;
    let mut b = lead;
    for word in words {
        c = lay_word(out, c, b, *word);
        b = b' ';
    }
    c
}

pub(crate) fn lay_coordinate(out: &mut [u8], at: usize, lead: u8, m: i64, e: i32) -> usize
    ensures { Laid out.old at (lead ∷ coordinate_text m e) out.new result }
{
    let c = lay_signed(out, at, lead, m);
    lay_signed(out, c, b'e', i64::from(e))
}
