// The usual coordinate word where only its place is wanted: its shape is looked at, and then that the word ends. Whatever else stands there is left to `quick_lead` and to the steps.
ghost use Rattle.std.specs.Prelude.{◌≡◌};
ghost use Rattle.pairs.specs.Pairs.{went_of};

use super::window::window_end;
use tokens::Cursor;

// The place behind a coordinate word.
pub fn quick_pair(s: &[u8], at: usize) -> Option<usize>
    ensures { result ≡ went_of s.now at }
{
    let start = (Cursor { at }).start(s);
    let size = s.len();
    if size <= start {
        return None;
    }
    let end = window_end(size, start, sizes::COORDINATE_BYTES);
    let count = coordinates::mild_in(&s[start..end])?;
    let next = start + count;
    if (Cursor { at: next }).ends_word(s) {
        return Some(next);
    }
    None
}
