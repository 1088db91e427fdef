// The parts of a coordinate word, each read at a place of the word.
ghost use Rattle.std.specs.Prelude.{◌≡◌, ◌^◌, ◌≤◌, ◌<◌, length, drop, false};
ghost use Rattle.digits.specs.Digits.{digits_in};
ghost use Rattle.decimals.specs.Coordinate.{fraction_in};
ghost use Rattle.coordinates.specs.Parts.{Fair, Scanned, grown, joined, Roomy, scan};

use super::sign::stands_at;
use digits::{Base, Group, bytes_at, group_of};
use numbers::digit_of;

// With 17 digits in m there is room for one more.
const ROOM: u64 = 100000000000000000;

// With 10 digits in m there is room for eight more.
const WIDE_ROOM: u64 = 10000000000;

// The digits so far: m, then `tail` zeros; or `over`, more than 18 digits once the zeros are
// dropped. `count` of them were read since the last point, and `next` is the place behind them.
// `over` is a flag and no variant: the count and the place go on just the same, and most digits
// leave it alone.
#[derive(Clone, Copy)]
pub(crate) struct Scan {
    pub m: u64,
    pub tail: u32,
    pub over: bool,
    pub count: u32,
    pub next: usize,
}

// No digit read yet, at this place.
pub(crate) fn none_at(next: usize) -> Scan
    ensures { result ≡ scan 0 0 false 0 next }
{
    Scan {
        m: 0,
        tail: 0,
        over: false,
        count: 0,
        next,
    }
}

// One more digit: into m while there is room, then only a zero may come.
#[tactic(auto, unfolding(crate::specs::Parts::grown))]
fn grow(x: Scan, d: u32) -> Scan
    requires { (d < 10) × (x.next < 64) × (x.tail ≤ x.next) × (x.count ≤ x.next) }
    ensures { result ≡ grown x d }
{
    let count = x.count + 1;
    let next = x.next + 1;
    if x.m < ROOM {
        let m = x.m * 10 + u64::from(d);
        return Scan {
            m,
            count,
            next,
            ..x
        };
    }
    if d == 0 {
        let tail = x.tail + 1;
        return Scan {
            tail,
            count,
            next,
            ..x
        };
    }
    Scan {
        over: true,
        count,
        next,
        ..x
    }
}

pub(crate) fn digits_from(w: &[u8], from: Scan) -> Scan
    requires { Fair w.now from }
    ensures { Scanned w.now from result (λ v. digits_in 10 v from.count (drop from.next w.now)) }
{
    let mut x = from;
    for b in &w[from.next..] {
        let d = digit_of(*b);
        if 10 <= d {
            return x;
        }
        x = grow(x, d);
    }
    x
}

fn ten_to(n: u32) -> u64
    requires { n ≤ 8 }
    ensures { result ≡ 10 ^ n }
{
    match n {
        0 => 1,
        1 => 10,
        2 => 100,
        3 => 1000,
        4 => 10000,
        5 => 100000,
        6 => 1000000,
        7 => 10000000,
        _ => 100000000,
    }
}

fn join(x: Scan, g: Group) -> Scan
    requires { Roomy x g }
    ensures { result ≡ joined x g }
{
    let n = g.count;
    let power = ten_to(n);
    let m = x.m * power + g.value;
    let count = x.count + n;
    let step = n as usize;
    let next = x.next + step;
    Scan {
        m,
        count,
        next,
        ..x
    }
}

// As `digits_from`, eight bytes at a time while there is room for eight digits; by places, since it stops where the room ends, within a chunk or not.
fn many_from(w: &[u8], from: Scan) -> Scan
    requires { Fair w.now from }
    ensures { Scanned w.now from result (λ v. digits_in 10 v from.count (drop from.next w.now)) }
{
    let mut x = from;
    while x.m < WIDE_ROOM {
        let at = x.next;
        let bytes = bytes_at(w, at);
        let g = group_of(bytes, Base::Ten);
        let n = g.count;
        if n == 8 {
            x = join(x, g);
        } else {
            return join(x, g);
        }
    }
    digits_from(w, x)
}

// The digits behind the point, where one stands here.
pub(crate) fn fraction_from(w: &[u8], x: Scan) -> Scan
    requires { Fair w.now x }
    ensures { Scanned w.now x result (λ v. fraction_in v (drop x.next w.now)) }
{
    let at = x.next;
    if stands_at(w, at, b'.') {
        let next = at + 1;
        return many_from(
            w,
            Scan {
                count: 0,
                next,
                ..x
            },
        );
    }
    Scan { count: 0, ..x }
}
