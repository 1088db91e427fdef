// Lines: a word, numbers behind it, a line feed.
ghost use Rattle.std.specs.Prelude.{◌≤◌, [], ◌∷◌, ◌++◌, length};
ghost use Rattle.lines.specs.Writing.{Wrote, decimal, behind, line};

use super::put::{put_decimal, put_text};

// A blank and a number.
fn put_number(out: &mut [u8], at: usize, n: usize) -> usize
    requires { at ≤ length out.old }
    ensures { Wrote out.old at (32 ∷ decimal n) out.new result }
{
    let c = put_text(out, at, b" ");
    put_decimal(out, c, n)
}

// One number and the line feed.
pub(crate) fn put_last(out: &mut [u8], at: usize, n: usize) -> usize
    requires { at ≤ length out.old }
    ensures { Wrote out.old at (behind (n ∷ [])) out.new result }
{
    let c = put_number(out, at, n);
    put_text(out, c, b"\n")
}

// Two numbers and the line feed.
pub(crate) fn put_two(out: &mut [u8], at: usize, a: usize, b: usize) -> usize
    requires { at ≤ length out.old }
    ensures { Wrote out.old at (behind (a ∷ b ∷ [])) out.new result }
{
    let c = put_number(out, at, a);
    put_last(out, c, b)
}

// A word, three numbers and the line feed.
pub fn put_line(out: &mut [u8], word: &[u8], a: usize, b: usize, c: usize) -> usize
    ensures { Wrote out.old 0 (line word.now (a ∷ b ∷ c ∷ [])) out.new result }
{
    let i = put_text(out, 0, word);
    let j = put_number(out, i, a);
    put_two(out, j, b, c)
}
