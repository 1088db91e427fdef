// A coordinate that is good whatever it says, known by its shape alone: so few digits and so small a power that nothing is computed.
ghost use Rattle.std.specs.Prelude.{◌≡◌, ◌≤◌, length, drop};
ghost use Rattle.decimals.specs.Mild.{mild_of};
ghost use Rattle.coordinates.specs.Behind.{behind_of, point_of, tens_to};

use super::power::is_mark;
use super::sign::{sign_at, stands_at};
use digits::{Base, bytes_at, group_of};
use numbers::digit_of;

// Most digits of a small power.
const POWER_DIGITS: usize = 2;

// The place behind the decimal digits from `at` on.
#[tactic(auto, using(crate::proofs::Mildly::digits_passed))]
fn digits_behind(w: &[u8], at: usize) -> usize
    ensures { result ≡ behind_of w.now at }
{
    for i in at..w.len() {
        if 10 <= digit_of(w[i]) {
            return i;
        }
    }
    at.max(w.len())
}

// The same, eight bytes at a time: behind the point digits are many.
// By places and not by chunks: `bytes_at` fills the last eight up, so that they need no loop of their own.
pub(crate) fn run_behind(w: &[u8], at: usize) -> usize
    ensures { result ≡ behind_of w.now at }
{
    let mut i = at;
    loop {
        let bytes = bytes_at(w, i);
        let g = group_of(bytes, Base::Ten);
        let count = g.count;
        if count < 8 {
            let step = count as usize;
            let end = i + step;
            return end;
        }
        i += 8;
    }
}

// The place behind a point, where one stands here.
#[tactic(auto, using(crate::proofs::Mildly::point_passed))]
fn point_behind(w: &[u8], at: usize) -> usize
    ensures { result ≡ point_of w.now at }
{
    if stands_at(w, at, b'.') {
        let next = at + 1;
        return next;
    }
    at
}

// The place behind the power from `at` on, where an `e` stands there and its digits are few.
#[tactic(auto, using(crate::proofs::Mildly::power_passed))]
fn power_behind(w: &[u8], at: usize) -> Option<usize>
    requires { at ≤ length w.now }
    ensures { result ≡ tens_to w.now (drop at w.now) }
{
    if w.len() <= at {
        return Some(at);
    }
    if is_mark(w[at]) {
        let behind = at + 1;
        let s = sign_at(w, behind);
        let from = s.next;
        let next = digits_behind(w, from);
        let count = next - from;
        if count < 1 || POWER_DIGITS < count {
            return None;
        }
        return Some(next);
    }
    Some(at)
}

pub fn mild_in(w: &[u8]) -> Option<usize>
    ensures { result ≡ mild_of w.now }
{
    if sizes::COORDINATE_BYTES < w.len() {
        return None;
    }
    let s = sign_at(w, 0);
    let from = s.next;
    let point = digits_behind(w, from);
    let behind = point_behind(w, point);
    let end = run_behind(w, behind);
    let front = point - from;
    let back = end - behind;
    let digits = front + back;
    let most = sizes::COORDINATE_DIGITS as usize;
    if digits < 1 || most < digits {
        return None;
    }
    power_behind(w, end)
}
