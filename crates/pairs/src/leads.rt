// The usual coordinate word: it is read as far as it goes, and then the word ends. Whatever else stands there is left to the step that takes the token apart.
ghost use Rattle.std.specs.Prelude.{◌≡◌};
ghost use Rattle.pairs.specs.Pairs.{leads_of};

use super::window::window_end;
use decimals::Decimal;
use facts::Taken;
use tokens::Cursor;

// The decimal of a coordinate word, and the place behind it.
pub fn quick_lead(s: &[u8], at: usize) -> Option<Taken<Decimal>>
    ensures { result ≡ leads_of s.now at }
{
    let start = (Cursor { at }).start(s);
    let size = s.len();
    if size <= start {
        return None;
    }
    let end = window_end(size, start, sizes::COORDINATE_BYTES);
    let l = coordinates::lead(&s[start..end]);
    let value = l.value?;
    let next = start + l.next;
    if (Cursor { at: next }).ends_word(s) {
        return Some(Taken { value, next });
    }
    None
}
