// A byte as a digit.
ghost use Rattle.std.specs.Prelude.{◌≡◌};
ghost use Rattle.digits.specs.Digits.{within, digit_of};

fn is_within(low: u8, high: u8, b: u8) -> bool
    ensures { result ≡ within low high b }
{
    low <= b && b <= high
}

// The digit's value, and 16 for a byte that is none, as the definition says.
pub fn digit_of(b: u8) -> u32
    ensures { result ≡ digit_of b }
{
    if is_within(b'0', b'9', b) {
        return (b - b'0') as u32;
    }
    if is_within(b'A', b'F', b) {
        return (b - 55) as u32;
    }
    if is_within(b'a', b'f', b) {
        return (b - 87) as u32;
    }
    16
}
