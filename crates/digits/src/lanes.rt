// The next eight bytes as one number, the first lowest: what is asked of each is then asked of all at once.
ghost use Rattle.std.specs.Prelude.{◌≡◌, ◌+◌, ◌-◌, ◌≤◌, ◌<◌, length, take, drop};
ghost use Rattle.digits.specs.Lanes.{Laned, unlike_of};

// Fewer than eight are left.
fn few_at(w: &[u8], at: usize) -> u64
    requires { (at ≤ length w.now) × (length w.now < at + 8) }
    ensures { Laned (drop at w.now) result }
{
    let mut x: u64 = 0;
    for i in (at..w.len()).rev() {
        x = x * 256 + u64::from(w[i]);
    }
    x
}

// Where fewer are left, the number ends in zeros.
pub fn bytes_at(w: &[u8], at: usize) -> u64
    ensures { Laned (take 8 (drop at w.now)) result }
{
    if w.len() <= at {
        return 0;
    }
    match w[at..].first_chunk::<8>() {
        Some(eight) => u64::from_le_bytes(*eight),
        None => few_at(w, at),
    }
}

// The highest bit of each of eight bytes that is unlike c's.
pub fn unlike(x: u64, c: u64) -> u64
    ensures { result ≡ unlike_of x c }
{
    let y = x ^ c;
    let low = y & 0x7f7f7f7f7f7f7f7f;
    let sum = low + 0x7f7f7f7f7f7f7f7f;
    sum | y
}
