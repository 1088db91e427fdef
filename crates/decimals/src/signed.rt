// A mantissa without its sign.
ghost use Rattle.std.specs.Prelude.{◌≡◌, nat_abs};

// -2^63 has one too.
pub fn magnitude(m: i64) -> u64
    ensures { result ≡ nat_abs m }
{
    m.unsigned_abs()
}
