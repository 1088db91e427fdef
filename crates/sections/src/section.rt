// One section, from behind its `(`: what it says, its rows left out, and the place behind it.
ghost use Rattle.std.specs.Prelude.{◌≡◌, length, eqb, ltb, ◌||◌};
ghost use Rattle.tokens.specs.Listed.{tokens_from};
ghost use Rattle.layout.specs.Keeps as Keeps;
ghost use Rattle.layout.specs.State as St;
ghost use Rattle.layout.specs.Reading.{choose};
ghost use Rattle.layout.specs.Sections.{two_of, decl_of, part_of, kind_of, other_of, section_of};
ghost use Rattle.spots.specs.Heads.{kind_for, head_for};
ghost use Rattle.judging.specs.Judging.{decl_judged, part_judged};
ghost use Rattle.sofar.specs.Sofar.{room_of};
ghost use Rattle.kept.specs.Kept.{kept_of};
ghost use Rattle.sofar.specs.States.{state_for};
ghost use Rattle.sections.specs.Sections.{SectAt, two_judged, gate, ended, body_ended, outlined, room_all, clear_for, by_id};

use bodies::body_at;
use dims::{dim_after, dim_agrees, dim_listed, dim_word};
use facts::Taken;
use heads::head_at;
use ids::id_at;
use judging::{decl_judged, ensure, part_judged};
use kept::{Kept, is_clear};
use layout::Refusal;
use notes::Met;
use numbers::Sort;
use skips::skip_from;
use sofar::{Room, State, count_of, id_of, kind_of};
use spots::{Bad, Head, Kind};
use steps::{number_at, right_at};

// The `)` of the section.
fn end_at(s: &[u8], at: usize, met: Met) -> Result<Taken<Met>, Bad>
    ensures { SectAt s.now at result (ended (length s.now) met (tokens_from s.now at)) }
{
    let close = right_at(s, at)?;
    Ok(Taken {
        value: met,
        next: close.next,
    })
}

pub(crate) fn decl_at(
    s: &[u8],
    at: usize,
    kind: Kind,
    x: State,
    room: Room,
    h: Head,
) -> Result<Taken<Met>, Bad>
    ensures { SectAt s.now at result (gate (decl_judged kind x (room_of room kind) h) (ended (length s.now) (Met.Decl kind h)) (tokens_from s.now at)) }
{
    decl_judged(kind, x, room.rows(kind), h)?;
    end_at(s, at, Met::Decl { kind, head: h })
}

// The body and the `)` of a regular section whose header is good.
pub(crate) fn rows_at(s: &[u8], at: usize, kind: Kind, dim: u32, h: Head) -> Result<Taken<Met>, Bad>
    ensures { SectAt s.now at result (body_ended (length s.now) kind dim h (tokens_from s.now at)) }
{
    let fifth = h.word();
    let word = dim_word(kind, fifth);
    let d = dim_after(dim, word);
    let n = count_of(h.first.value, h.last.value);
    let behind = body_at(s, at, kind, d, n, fifth)?;
    end_at(s, behind, Met::Part { kind, head: h })
}

fn part_at(
    s: &[u8],
    at: usize,
    kind: Kind,
    x: State,
    room: Room,
    h: Head,
    kept: &[Kept],
) -> Result<Taken<Met>, Bad>
    ensures { SectAt s.now at result (gate (part_judged kind x x.zones room.zones h (clear_for (kept_of kept.now) kind x.zones h)) (body_ended (length s.now) kind x.dim h) (tokens_from s.now at)) }
{
    let id = id_of(kind);
    let zones = x.zones as usize;
    let apart = is_clear(kept, zones, id, h.first.value, h.last.value);
    part_judged(kind, x, zones, room.zones, h, apart)?;
    rows_at(s, at, kind, x.dim, h)
}

// Zone 0 declares; any other is a regular section.
fn behind_head(
    s: &[u8],
    at: usize,
    kind: Kind,
    x: State,
    room: Room,
    h: Head,
    kept: &[Kept],
) -> Result<Taken<Met>, Bad>
    ensures { SectAt s.now at result (outlined (choose (eqb h.zone.value 0) (decl_of (length s.now) (room_all room) (kind_for kind) (state_for kept.now x) (head_for h)) (part_of (length s.now) (room_all room) (kind_for kind) (state_for kept.now x) (head_for h)) (tokens_from s.now at))) }
{
    let zone = h.zone.value;
    if zone == 0 {
        decl_at(s, at, kind, x, room, h)
    } else {
        part_at(s, at, kind, x, room, h, kept)
    }
}

fn kind_at(
    s: &[u8],
    at: usize,
    kind: Kind,
    x: State,
    room: Room,
    kept: &[Kept],
) -> Result<Taken<Met>, Bad>
    ensures { SectAt s.now at result (outlined (kind_of (length s.now) (room_all room) (kind_for kind) (state_for kept.now x) (tokens_from s.now at))) }
{
    let head = head_at(s, at, kind)?;
    behind_head(s, head.next, kind, x, room, head.value, kept)
}

// Type, Dimension.
fn two_judged(dim: u32, value: u32, start: usize) -> Result<(), Bad>
    ensures { result ≡ two_judged dim value start }
{
    let word = Some(value);
    ensure(dim_listed(word), Refusal::Type, start)?;
    ensure(dim_agrees(dim, word), Refusal::Dimension, start)
}

// Section 2: N and the `)`.
pub(crate) fn two_at(s: &[u8], at: usize, dim: u32) -> Result<Taken<Met>, Bad>
    ensures { (x : St.State) → dim ≡ x.dimension → SectAt s.now at result (outlined (two_of (length s.now) x (tokens_from s.now at))) }
{
    let n = number_at(s, at, Sort::Hexadecimal)?;
    let close = right_at(s, n.next)?;
    two_judged(dim, n.value.value, n.value.at)?;
    Ok(Taken {
        value: Met::Dim(n.value.value),
        next: close.next,
    })
}

pub(crate) fn other_at(s: &[u8], at: usize) -> Result<Taken<Met>, Bad>
    ensures { (room : Keeps.Room) → SectAt s.now at result (outlined (other_of (length s.now) room (tokens_from s.now at))) }
{
    let next = skip_from(s, at)?;
    Ok(Taken {
        value: Met::Other,
        next,
    })
}

fn by_id(
    s: &[u8],
    at: usize,
    id: u32,
    x: State,
    room: Room,
    kept: &[Kept],
) -> Result<Taken<Met>, Bad>
    ensures { SectAt s.now at result (outlined (by_id (length s.now) (room_all room) id (state_for kept.now x) (tokens_from s.now at))) }
{
    if id == 2 {
        return two_at(s, at, x.dim);
    }
    match kind_of(id) {
        Some(kind) => kind_at(s, at, kind, x, room, kept),
        None => other_at(s, at),
    }
}

pub(crate) fn is_text(id: u32) -> bool
    ensures { result ≡ (ltb id 2000 || ltb 3999 id) }
{
    id < 2000 || 3999 < id
}

// A section from behind its `(`.
pub fn section_at(
    s: &[u8],
    at: usize,
    x: State,
    room: Room,
    kept: &[Kept],
) -> Result<Taken<Met>, Bad>
    ensures { SectAt s.now at result (outlined (section_of (length s.now) (room_all room) (state_for kept.now x) (tokens_from s.now at))) }
{
    let id = id_at(s, at)?;
    if is_text(id.value.value) {
        return by_id(s, id.next, id.value.value, x, room, kept);
    }
    Err(Bad {
        why: Refusal::Binary,
        offset: id.value.at,
    })
}
