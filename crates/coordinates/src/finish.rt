// The pair that is kept of a coordinate: canonical, or no number.
ghost use Rattle.std.specs.Prelude.{◌≡◌, ℕ, ◌<◌, ◌≤◌, ◌*◌, ◌^◌, pos, ◌-ℤ◌};
ghost use Rattle.std.specs.Int.Signed.{mag};
ghost use Rattle.decimals.specs.Coordinate.{keep, keep_by};
ghost use Rattle.coordinates.specs.Parts.{CutOf, Ready, Mild, Stands};

use super::scan::Scan;
use super::signed::{exponent_of, in_range, with_sign};
use decimals::{Cut, Decimal};

// m and `tail` zeros, without the zeros at the end, and how many these are. No `for`: how many there are is what is asked.
#[tactic(auto, using(decimals::proofs::Tens::cutting, decimals::proofs::Tens::few))]
fn cut_of(m: u64, tail: u32) -> Cut
    requires { (0 < m) × (m < 10 ^ 18) × (tail ≤ 64) }
    ensures { CutOf (m * 10 ^ tail) result }
{
    let mut v = m;
    let mut zeros = tail;
    while v % 10 == 0 {
        v = v / 10;
        zeros = zeros + 1;
    }
    Cut { m: v, zeros }
}

fn finish_of(negative: bool, x: Scan, k: i64) -> Option<Decimal>
    requires { Ready x × (mag k < 1000) }
    ensures { (v : ℕ) → Stands x v → result ≡ keep negative v (k -ℤ pos x.count) }
{
    if x.over {
        return None;
    }
    if x.m == 0 {
        return Some(Decimal {
            mantissa: 0,
            exponent: 0,
        });
    }
    let c = cut_of(x.m, x.tail);
    let e = exponent_of(k, x.count, c.zeros);
    if !in_range(e) {
        return None;
    }
    let mantissa = with_sign(negative, c.m);
    let exponent = e as i32;
    Some(Decimal { mantissa, exponent })
}

pub(crate) fn finish_by(negative: bool, x: Scan, p: Option<i64>) -> Option<Decimal>
    requires { Ready x × Mild p }
    ensures { (v : ℕ) → Stands x v → result ≡ keep_by negative v x.count p }
{
    let k = p?;
    finish_of(negative, x, k)
}
