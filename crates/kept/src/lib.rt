// The regular sections met so far, in order: as one slice, or as three side by side.
#![tactic(auto)]

ghost use Rattle.std.specs.Prelude.{◌≡◌, take};
ghost use Rattle.std.specs.List.{find};
ghost use Rattle.layout.specs.State.{every, clear, tiled};
ghost use Rattle.kept.specs.Kept.{holds, kept_of};

mod by_lists;

pub use by_lists::{is_clear_by_lists, is_tiled_by_lists};

// The id, the first and the last of each: three slices, since a call may have them of any length. A word behind the end of one is 0.
#[derive(Clone, Copy)]
pub struct Lists<'a> {
    pub ids: &'a [u32],
    pub firsts: &'a [u32],
    pub lasts: &'a [u32],
}

// The id of a section, and the first and the last of its indices.
#[derive(Clone, Copy, Debug, PartialEq, Eq)]
pub struct Kept {
    pub id: u32,
    pub first: u32,
    pub last: u32,
}

// Whether first to last meets none of the first z sections that is of this kind. The number stands beside the slice: with a part of it callers would have to show, at each call, that z is within.
pub fn is_clear(kept: &[Kept], z: usize, id: u32, first: u32, last: u32) -> bool
    ensures { result ≡ every (clear first last) (kept_of kept.now id z) }
{
    kept.iter()
        .take(z)
        .all(|k| k.id != id || k.last < first || last < k.first)
}

// The first of the first z sections that is of this kind and has i in it.
fn holder(kept: &[Kept], z: usize, id: u32, i: u32) -> Option<Kept>
    ensures { result ≡ find (holds id i) (take z kept.now) }
{
    kept.iter()
        .take(z)
        .copied()
        .find(|k| k.id == id && k.first <= i && i <= k.last)
}

// Whether the first z sections that are of this kind have every index from 1 to total: from one section's last index on to the next, which no counted loop is.
pub fn is_tiled(kept: &[Kept], z: usize, id: u32, total: u32) -> bool
    ensures { result ≡ tiled (kept_of kept.now id z) total }
{
    let mut done = 0;
    while done < total {
        let Some(met) = holder(kept, z, id, done + 1) else {
            return false;
        };
        done = met.last;
    }
    true
}

#[test]
fn one_slice_and_three_lists_answer_alike(rt: HostRuntime) {
    let cell = Kept {
        id: 12,
        first: 1,
        last: 3,
    };
    let face = Kept {
        id: 13,
        first: 1,
        last: 9,
    };
    let more = Kept {
        id: 12,
        first: 4,
        last: 6,
    };
    let kept = [cell, face, more];
    assert!(rt; is_clear(&kept, 2, 12, 4, 6));
    assert!(rt; !is_clear(&kept, 3, 12, 6, 7));
    assert!(rt; is_tiled(&kept, 3, 12, 6));
    assert!(rt; !is_tiled(&kept, 2, 12, 6));
    let lists = Lists {
        ids: &[12, 13, 12],
        firsts: &[1, 1, 4],
        lasts: &[3, 9, 6],
    };
    assert!(rt; is_clear_by_lists(lists, 2, 12, 4, 6));
    assert!(rt; !is_clear_by_lists(lists, 3, 12, 6, 7));
    assert!(rt; is_tiled_by_lists(lists, 3, 12, 6));
    assert!(rt; !is_tiled_by_lists(lists, 2, 12, 6));
    // A slice has nothing behind its end; three lists have a section 0 from 0 to 0 there.
    assert!(rt; is_clear(&kept, 4, 0, 0, 5));
    assert!(rt; !is_clear_by_lists(lists, 4, 0, 0, 5));
}
