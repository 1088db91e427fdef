// Whole numbers: one loop for every base.
ghost use Rattle.std.specs.Prelude.{◌≡◌, ◌<◌, ◌≤◌, ◌^◌};
ghost use Rattle.numbers.specs.Whole.{whole_of, hexadecimal_of, section_id_of, power_digits_of};

use super::digit::digit_of;

// A word of 1 to `most` digits to the base.
fn whole_of(w: &[u8], base: u32, most: usize) -> Option<u32>
    requires { (0 < base) × (base ^ most ≤ 2 ^ 32) }
    ensures { result ≡ whole_of base most w.now }
{
    if w.is_empty() {
        return None;
    }
    if most < w.len() {
        return None;
    }
    let mut v: u32 = 0;
    for b in w {
        let d = digit_of(*b);
        if base <= d {
            return None;
        }
        v = v * base + d;
    }
    Some(v)
}

pub fn hexadecimal(w: &[u8]) -> Option<u32>
    ensures { result ≡ hexadecimal_of w.now }
{
    whole_of(w, 16, 8)
}

pub fn section_id(w: &[u8]) -> Option<u32>
    ensures { result ≡ section_id_of w.now }
{
    whole_of(w, 10, 5)
}

pub fn power_digits(w: &[u8]) -> Option<u32>
    ensures { result ≡ power_digits_of w.now }
{
    whole_of(w, 10, 3)
}
