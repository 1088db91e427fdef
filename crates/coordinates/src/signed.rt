// Signs: a magnitude negated or not, an exponent as a sum, and its range.
ghost use Rattle.std.specs.Prelude.{◌≡◌, ◌<◌, ◌≤◌, ◌^◌, pos, ◌+ℤ◌, ◌-ℤ◌};
ghost use Rattle.std.specs.Int.Signed.{mag};
ghost use Rattle.decimals.specs.Coordinate.{sign_of, in_range};

pub(crate) fn with_sign(negative: bool, m: u64) -> i64
    requires { m < 2 ^ 63 }
    ensures { result ≡ sign_of negative m }
{
    if negative {
        return -(m as i64);
    }
    m as i64
}

// A power k, less the places behind the point, and the zeros dropped at the end.
pub(crate) fn exponent_of(k: i64, places: u32, zeros: u32) -> i64
    requires { (mag k < 1000) × (places ≤ 64) × (zeros < 82) }
    ensures { result ≡ (k -ℤ pos places) +ℤ pos zeros }
{
    k - i64::from(places) + i64::from(zeros)
}

#[tactic(auto, unfolding(decimals::specs::Coordinate::in_range))]
pub(crate) fn in_range(e: i64) -> bool
    ensures { result ≡ in_range e }
{
    (-400..=400).contains(&e)
}
