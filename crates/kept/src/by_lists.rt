// `is_clear` and `is_tiled`, where the sections are kept in three lists.
ghost use Rattle.std.specs.Prelude.{◌≡◌, get_or};
ghost use Rattle.layout.specs.State.{every, clear, tiled};
ghost use Rattle.kept.specs.Kept.{listed, apart, holds, kept_at, kept_by_lists, holder_of};

use super::{Kept, Lists};

fn word_at(w: &[u32], i: usize) -> u32
    ensures { result ≡ get_or w.now i 0 }
{
    if i < w.len() { w[i] } else { 0 }
}

fn kept_at(lists: Lists<'_>, i: usize) -> Kept
    ensures { result ≡ kept_at (listed lists.entry) i }
{
    Kept {
        id: word_at(lists.ids, i),
        first: word_at(lists.firsts, i),
        last: word_at(lists.lasts, i),
    }
}

// Of another kind, or without an index from first to last.
fn is_apart(met: Kept, id: u32, first: u32, last: u32) -> bool
    ensures { result ≡ apart id first last met }
{
    met.id != id || met.last < first || last < met.first
}

// Of this kind, with i in it.
fn holds(met: Kept, id: u32, i: u32) -> bool
    ensures { result ≡ holds id i met }
{
    met.id == id && met.first <= i && i <= met.last
}

// Whether first to last meets none of the first z sections that is of this kind. A place behind the end of all three has a section 0 from 0 to 0; behind the end of one, its word alone is 0.
pub fn is_clear_by_lists(lists: Lists<'_>, z: usize, id: u32, first: u32, last: u32) -> bool
    ensures { result ≡ every (clear first last) (kept_by_lists (listed lists.entry) id z) }
{
    for i in (0..z).rev() {
        if !is_apart(kept_at(lists, i), id, first, last) {
            return false;
        }
    }
    true
}

// The last of the first z sections that is of this kind and has i in it.
fn holder(lists: Lists<'_>, z: usize, id: u32, i: u32) -> Option<Kept>
    ensures { result ≡ holder_of (listed lists.entry) id i z }
{
    for left in (0..z).rev() {
        let met = kept_at(lists, left);
        if holds(met, id, i) {
            return Some(met);
        }
    }
    None
}

// Whether the first z sections that are of this kind have every index from 1 to total: from one section's last index on to the next, which no counted loop is.
pub fn is_tiled_by_lists(lists: Lists<'_>, z: usize, id: u32, total: u32) -> bool
    ensures { result ≡ tiled (kept_by_lists (listed lists.entry) id z) total }
{
    let mut done = 0;
    while done < total {
        let Some(met) = holder(lists, z, id, done + 1) else {
            return false;
        };
        done = met.last;
    }
    true
}
