// A coordinate at the start of some bytes, read without knowing where its word ends.
ghost use Rattle.std.specs.Prelude.{◌≡◌};
ghost use Rattle.decimals.specs.Lead.{lead_of};

use super::finish::finish_by;
use super::power::power_lead;
use super::scan::{digits_from, fraction_from, none_at};
use super::sign::sign_at;
use decimals::Decimal;
use facts::Taken;

pub fn lead(w: &[u8]) -> Taken<Option<Decimal>>
    ensures { result ≡ lead_of w.now }
{
    if sizes::COORDINATE_BYTES < w.len() {
        return Taken {
            value: None,
            next: 0,
        };
    }
    let s = sign_at(w, 0);
    let front = digits_from(w, none_at(s.next));
    let back = fraction_from(w, front);
    let at = back.next;
    let p = power_lead(w, at);
    let next = p.next;
    let digits = front.count + back.count;
    if digits == 0 {
        return Taken { value: None, next };
    }
    let value = finish_by(s.negative, back, p.value);
    Taken { value, next }
}
