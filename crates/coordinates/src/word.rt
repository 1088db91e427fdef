// A coordinate word, from its sign to its power.
ghost use Rattle.std.specs.Prelude.{◌≡◌};
ghost use Rattle.decimals.specs.Coordinate.{coordinate_of};

use super::finish::finish_by;
use super::power::power_at;
use super::scan::{digits_from, fraction_from, none_at};
use super::sign::sign_at;
use decimals::Decimal;

pub fn coordinate(w: &[u8]) -> Option<Decimal>
    ensures { result ≡ coordinate_of w.now }
{
    if sizes::COORDINATE_BYTES < w.len() {
        return None;
    }
    let s = sign_at(w, 0);
    let front = digits_from(w, none_at(s.next));
    let back = fraction_from(w, front);
    let digits = front.count + back.count;
    if digits == 0 {
        return None;
    }
    let at = back.next;
    let p = power_at(w, at);
    finish_by(s.negative, back, p)
}
