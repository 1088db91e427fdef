// Bytes and decimal numbers, written as far as there is room.
ghost use Rattle.std.specs.Prelude.{◌≤◌, ◌<◌, ◌≡◌, [], ◌∷◌, length, drop};
ghost use Rattle.lines.specs.Writing.{Wrote, decimal, behind};

// One byte; a place at the end stays there.
fn put_byte(out: &mut [u8], at: usize, b: u8) -> usize
    requires { at ≤ length out.old }
    ensures { Wrote out.old at (b ∷ []) out.new result }
{
    if at < out.len() {
        out[at] = b;
        let next = at + 1;
        return next;
    }
    at
}

// Byte by byte: texts are short, and to copy them as slices is slower.
pub(crate) fn put_text(out: &mut [u8], at: usize, text: &[u8]) -> usize
    requires { at ≤ length out.old }
    ensures { Wrote out.old at text.now out.new result }
{
    let mut c = at;
    for b in text {
        c = put_byte(out, c, *b);
    }
    c
}

// The figures of a number stand from `start` on: they are found from the last to the first, and a function can't answer a part of an array of its own.
#[derive(Clone, Copy)]
struct Figures {
    b: [u8; 20],
    start: usize,
}

// No `for`: how many figures there are is known when they are made.
fn figures_of(n: usize) -> Figures
    ensures { (drop result.start result.b ≡ decimal n) × (result.start < 20) × (length result.b ≡ 20) }
{
    let mut b: [u8; 20] = [0; 20];
    let mut v = n;
    let mut i: usize = 19;
    while 10 <= v {
        let low = v % 10;
        let figure = 48 + low;
        b[i] = figure as u8;
        v /= 10;
        i -= 1;
    }
    let last = 48 + v;
    b[i] = last as u8;
    Figures { b, start: i }
}

pub(crate) fn put_decimal(out: &mut [u8], at: usize, n: usize) -> usize
    requires { at ≤ length out.old }
    ensures { Wrote out.old at (decimal n) out.new result }
{
    let f = figures_of(n);
    let b = f.b;
    let start = f.start;
    put_text(out, at, &b[start..])
}
