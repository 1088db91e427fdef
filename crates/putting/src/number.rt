// A number's figures, over the base.
ghost use Rattle.std.specs.Prelude.{◌+◌, ◌*◌, ◌^◌, ◌≤◌, ◌<◌, ◌≡◌, length};
ghost use Rattle.std.proofs.lemmas.List.Edits.{sets};
ghost use Rattle.figures.specs.Figures.{figure, figures};
ghost use Rattle.putting.specs.Putting.{Put};

use super::put::put_text;

#[tactic(auto, unfolding(figures::specs::Figures::figure))]
fn figure_of(d: u64) -> u8
    requires { d < 16 }
    ensures { result ≡ figure d }
{
    if d < 10 {
        b'0' + d as u8
    } else {
        b'a' + (d - 10) as u8
    }
}

// How many decimal figures a number has of which `before` and one to four more are known.
fn few_count(n: u64, low: u64, before: usize) -> usize
    requires { (before ≤ 16) × (low ≡ 10 ^ before) × (low ≤ 10000000000000000) × (low ≤ n) × (n < 10000 * low) }
    ensures { result ≡ length (figures 10 n) }
{
    let two = 10 * low;
    let three = 100 * low;
    let four = 1000 * low;
    if n < three {
        return if n < two { before + 1 } else { before + 2 };
    }
    if n < four { before + 3 } else { before + 4 }
}

// How many decimal figures a number has, by comparing.
pub(crate) fn decimal_count(n: u64) -> usize
    ensures { result ≡ length (figures 10 n) }
{
    if n < 10 {
        return 1;
    }
    if n < 10000 {
        return few_count(n, 1, 0);
    }
    if n < 100000000 {
        return few_count(n, 10000, 4);
    }
    if n < 1000000000000 {
        return few_count(n, 100000000, 8);
    }
    if n < 10000000000000000 {
        return few_count(n, 1000000000000, 12);
    }
    few_count(n, 10000000000000000, 16)
}

// How many hexadecimal figures a number has: one for each four bits that are begun. 0 has one, as 1 has.
pub(crate) fn hex_count(n: u64) -> usize
    ensures { result ≡ length (figures 16 n) }
{
    let bits = 67 - (n | 1).leading_zeros();
    (bits / 4) as usize
}

// The figures from the last to the first. The base is a constant, so that no number is divided by one that is not known.
pub(crate) fn lay_figures<const BASE: u64>(out: &mut [u8], from: usize, count: usize, n: u64)
    requires { (10 ≤ BASE) × (BASE ≤ 16) × (count ≡ length (figures BASE n)) × (from + count ≤ length out.old) }
    ensures { out.new ≡ sets out.old from (figures BASE n) }
{
    let mut v = n;
    for left in (0..count).rev() {
        let low = v % BASE;
        out[from + left] = figure_of(low);
        v /= BASE;
    }
}

// A number that the end may cut.
fn put_cut<const BASE: u64>(out: &mut [u8], at: usize, count: usize, n: u64) -> usize
    requires { (10 ≤ BASE) × (BASE ≤ 16) × (count ≡ length (figures BASE n)) }
    ensures { Put out.old at (figures BASE n) out.new result }
{
    let mut whole: [u8; 20] = [0; 20];
    lay_figures::<BASE>(&mut whole, 0, count, n);
    put_text(out, at, &whole[..count])
}

// A number with so many figures.
fn put_figures<const BASE: u64>(out: &mut [u8], at: usize, count: usize, n: u64) -> usize
    requires { (10 ≤ BASE) × (BASE ≤ 16) × (count ≡ length (figures BASE n)) }
    ensures { Put out.old at (figures BASE n) out.new result }
{
    let next = at.saturating_add(count);
    let size = out.len();
    if next <= size {
        lay_figures::<BASE>(out, at, count, n);
        return next;
    }
    if size <= at {
        return next;
    }
    put_cut::<BASE>(out, at, count, n)
}

pub fn put_decimal(out: &mut [u8], at: usize, n: u64) -> usize
    ensures { Put out.old at (figures 10 n) out.new result }
{
    put_figures::<10>(out, at, decimal_count(n), n)
}

pub fn put_hex(out: &mut [u8], at: usize, n: u64) -> usize
    ensures { Put out.old at (figures 16 n) out.new result }
{
    put_figures::<16>(out, at, hex_count(n), n)
}
