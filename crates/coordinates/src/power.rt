// What may stand behind a coordinate's digits: the power of ten.
ghost use Rattle.std.specs.Prelude.{◌≡◌, ◌≤◌, length, drop};
ghost use Rattle.decimals.specs.Coordinate.{is_mark, power_by, marked_of, power_of};
ghost use Rattle.decimals.specs.Lead.{marked_in, power_in};
ghost use Rattle.coordinates.specs.Parts.{Below, PowerAt};

use super::scan::{digits_from, none_at};
use super::sign::sign_at;
use super::signed::with_sign;
use facts::Taken;
use numbers::power_digits;

pub(crate) fn is_mark(b: u8) -> bool
    ensures { result ≡ is_mark b }
{
    matches!(b, b'e' | b'E')
}

fn power_by(negative: bool, k: Option<u32>) -> Option<i64>
    requires { Below 1000 k }
    ensures { result ≡ power_by negative k }
{
    let v = k?;
    Some(with_sign(negative, u64::from(v)))
}

// Behind the `e`: an optional sign and 1 to 3 digits.
fn marked_at(w: &[u8], at: usize) -> Option<i64>
    requires { at ≤ length w.now }
    ensures { result ≡ marked_of (drop at w.now) }
{
    let s = sign_at(w, at);
    let n = s.next;
    let k = power_digits(&w[n..]);
    power_by(s.negative, k)
}

// All that is left of the word from `at` on: nothing, or an `e` and its power.
#[tactic(auto, using(crate::proofs::Places::powers))]
pub(crate) fn power_at(w: &[u8], at: usize) -> Option<i64>
    requires { at ≤ length w.now }
    ensures { result ≡ power_of (drop at w.now) }
{
    if w.len() <= at {
        return Some(0);
    }
    if is_mark(w[at]) {
        let behind = at + 1;
        return marked_at(w, behind);
    }
    None
}

// Behind the `e`, whatever follows: an optional sign and all digits, of which 1 to 3 are a power.
fn marked_lead(w: &[u8], at: usize) -> Taken<Option<i64>>
    requires { (length w.now ≤ 64) × (at ≤ length w.now) }
    ensures { PowerAt w.now result (marked_in (drop at w.now)) }
{
    let s = sign_at(w, at);
    let d = digits_from(w, none_at(s.next));
    let next = d.next;
    if d.count < 1 || 3 < d.count {
        return Taken { value: None, next };
    }
    let value = Some(with_sign(s.negative, d.m));
    Taken { value, next }
}

// The power from `at` on, whatever follows it. With no `e` there is none, and nothing is passed.
#[tactic(auto, using(crate::proofs::Leading::leading_powers))]
pub(crate) fn power_lead(w: &[u8], at: usize) -> Taken<Option<i64>>
    requires { (length w.now ≤ 64) × (at ≤ length w.now) }
    ensures { PowerAt w.now result (power_in (drop at w.now)) }
{
    if w.len() <= at {
        return Taken {
            value: Some(0),
            next: at,
        };
    }
    if is_mark(w[at]) {
        let behind = at + 1;
        return marked_lead(w, behind);
    }
    Taken {
        value: Some(0),
        next: at,
    }
}
