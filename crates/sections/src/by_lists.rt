// A section as `section_at` takes it, where those before it are kept in three lists: the way that a file is judged.
ghost use Rattle.std.specs.Prelude.{◌≡◌, length, eqb};
ghost use Rattle.tokens.specs.Listed.{tokens_from};
ghost use Rattle.layout.specs.Reading.{choose};
ghost use Rattle.layout.specs.Sections.{decl_of, part_of, kind_of, section_of};
ghost use Rattle.spots.specs.Heads.{kind_for, head_for};
ghost use Rattle.judging.specs.Judging.{part_judged};
ghost use Rattle.kept.specs.Kept.{listed, kept_by_lists};
ghost use Rattle.sofar.specs.States.{state_by_lists};
ghost use Rattle.sections.specs.Sections.{SectAt, gate, body_ended, outlined, room_all, clear_for, by_id};

use super::section::{decl_at, is_text, other_at, rows_at, section_at, two_at};
use facts::Taken;
use heads::head_at;
use ids::id_at;
use judging::part_judged;
use kept::{Kept, Lists, is_clear_by_lists};
use layout::Refusal;
use notes::Met;
use sofar::{Room, Seen, State, id_of, kind_of};
use spots::{Bad, Head, Kind};

fn part_at(
    s: &[u8],
    at: usize,
    kind: Kind,
    x: State,
    room: Room,
    h: Head,
    lists: Lists<'_>,
) -> Result<Taken<Met>, Bad>
    ensures { SectAt s.now at result (gate (part_judged kind x x.zones room.zones h (clear_for (kept_by_lists (listed lists.entry)) kind x.zones h)) (body_ended (length s.now) kind x.dim h) (tokens_from s.now at)) }
{
    let id = id_of(kind);
    let zones = x.zones as usize;
    let apart = is_clear_by_lists(lists, zones, id, h.first.value, h.last.value);
    part_judged(kind, x, zones, room.zones, h, apart)?;
    rows_at(s, at, kind, x.dim, h)
}

// Zone 0 declares; any other is a regular section.
fn behind_head(
    s: &[u8],
    at: usize,
    kind: Kind,
    x: State,
    room: Room,
    h: Head,
    lists: Lists<'_>,
) -> Result<Taken<Met>, Bad>
    ensures { SectAt s.now at result (outlined (choose (eqb h.zone.value 0) (decl_of (length s.now) (room_all room) (kind_for kind) (state_by_lists (listed lists.entry) x) (head_for h)) (part_of (length s.now) (room_all room) (kind_for kind) (state_by_lists (listed lists.entry) x) (head_for h)) (tokens_from s.now at))) }
{
    let zone = h.zone.value;
    if zone == 0 {
        decl_at(s, at, kind, x, room, h)
    } else {
        part_at(s, at, kind, x, room, h, lists)
    }
}

fn kind_at(
    s: &[u8],
    at: usize,
    kind: Kind,
    x: State,
    room: Room,
    lists: Lists<'_>,
) -> Result<Taken<Met>, Bad>
    ensures { SectAt s.now at result (outlined (kind_of (length s.now) (room_all room) (kind_for kind) (state_by_lists (listed lists.entry) x) (tokens_from s.now at))) }
{
    let head = head_at(s, at, kind)?;
    behind_head(s, head.next, kind, x, room, head.value, lists)
}

fn by_id(
    s: &[u8],
    at: usize,
    id: u32,
    x: State,
    room: Room,
    lists: Lists<'_>,
) -> Result<Taken<Met>, Bad>
    ensures { SectAt s.now at result (outlined (by_id (length s.now) (room_all room) id (state_by_lists (listed lists.entry) x) (tokens_from s.now at))) }
{
    if id == 2 {
        return two_at(s, at, x.dim);
    }
    match kind_of(id) {
        Some(kind) => kind_at(s, at, kind, x, room, lists),
        None => other_at(s, at),
    }
}

// A section from behind its `(`.
pub fn section_by_lists(
    s: &[u8],
    at: usize,
    x: State,
    room: Room,
    lists: Lists<'_>,
) -> Result<Taken<Met>, Bad>
    ensures { SectAt s.now at result (outlined (section_of (length s.now) (room_all room) (state_by_lists (listed lists.entry) x) (tokens_from s.now at))) }
{
    let id = id_at(s, at)?;
    if is_text(id.value.value) {
        return by_id(s, id.next, id.value.value, x, room, lists);
    }
    Err(Bad {
        why: Refusal::Binary,
        offset: id.value.at,
    })
}

#[test]
fn overlap_by_one_slice_and_by_three_lists(rt: HostRuntime) {
    let declared = Seen {
        declared: true,
        total: 3,
    };
    let mut x = State {
        dim: 2,
        nodes: declared,
        cells: declared,
        faces: declared,
        zones: 1,
    };
    let room = Room {
        nodes: None,
        cells: None,
        faces: None,
        zones: None,
    };
    let cells = [Kept {
        id: 12,
        first: 3,
        last: 3,
    }];
    let lists = Lists {
        ids: &[12],
        firsts: &[3],
        lasts: &[3],
    };
    // Cells 1 to 3 behind cell 3, and then behind none.
    let text = b"12 (1 1 3 1 1))";
    let overlap = Bad {
        why: Refusal::Overlap,
        offset: 6,
    };
    assert!(rt; section_at(text, 0, x, room, &cells).err() == Some(overlap));
    assert!(rt; section_by_lists(text, 0, x, room, lists).err() == Some(overlap));
    x.zones = 0;
    assert!(rt; section_at(text, 0, x, room, &cells).is_ok());
    assert!(rt; section_by_lists(text, 0, x, room, lists).is_ok());
}
