// A header judged by what came before it, in the order of the refusals' numbers.
ghost use Rattle.std.specs.Prelude.{◌≡◌, Ok};
ghost use Rattle.judging.specs.Judging.{test, decl_judged, words_judged, part_judged};

use dims::{dim_after, dim_agrees, dim_known, dim_listed, dim_word};
use layout::Refusal;
use listing::{fifth_listed, type_listed};
use ranges::{decl_range, fits_in, part_range, zone_fits};
use sofar::State;
use spots::{Bad, Head, Kind};

// What the tests behind one that holds say; or its refusal.
pub fn unless(ok: bool, why: Refusal, offset: usize, rest: Result<(), Bad>) -> Result<(), Bad>
    ensures { result ≡ test ok why offset rest }
{
    if ok { rest } else { Err(Bad { why, offset }) }
}

// The same with nothing behind it, to be handed on with `?`.
pub fn ensure(ok: bool, why: Refusal, offset: usize) -> Result<(), Bad>
    ensures { result ≡ test ok why offset (Ok tt) }
{
    unless(ok, why, offset, Ok(()))
}

// Undeclared, Range, TableRoom, Type, Dimension. The limit is on rows.
pub fn decl_judged(kind: Kind, x: State, limit: Option<usize>, h: Head) -> Result<(), Bad>
    ensures { result ≡ decl_judged kind x limit h }
{
    let last = h.last.value;
    let word = dim_word(kind, h.word());
    ensure(!x.seen(kind).declared, Refusal::Undeclared, h.zone.at)?;
    ensure(decl_range(h.first.value, last), Refusal::Range, h.first.at)?;
    ensure(
        fits_in(limit, last as usize),
        Refusal::TableRoom,
        h.first.at,
    )?;
    ensure(dim_listed(word), Refusal::Type, h.place())?;
    ensure(dim_agrees(x.dim, word), Refusal::Dimension, h.place())
}

// Type, Type, Dimension, Dimension, ZoneRoom.
fn words_judged(
    kind: Kind,
    x: State,
    zones: usize,
    limit: Option<usize>,
    h: Head,
) -> Result<(), Bad>
    ensures { result ≡ words_judged kind x zones limit h }
{
    let word = dim_word(kind, h.word());
    ensure(type_listed(kind, h.ztype.value), Refusal::Type, h.ztype.at)?;
    ensure(fifth_listed(kind, h.word()), Refusal::Type, h.place())?;
    ensure(dim_agrees(x.dim, word), Refusal::Dimension, h.place())?;
    ensure(
        dim_known(kind, dim_after(x.dim, word)),
        Refusal::Dimension,
        h.end,
    )?;
    ensure(zone_fits(limit, zones), Refusal::ZoneRoom, h.zone.at)
}

// Undeclared, Range, Overlap, and then the words. The limit is on zone records; how many there are is told apart from the state, since it may be any number.
pub fn part_judged(
    kind: Kind,
    x: State,
    zones: usize,
    limit: Option<usize>,
    h: Head,
    apart: bool,
) -> Result<(), Bad>
    ensures { result ≡ part_judged kind x zones limit h apart }
{
    let first = h.first;
    let seen = x.seen(kind);
    ensure(seen.declared, Refusal::Undeclared, h.zone.at)?;
    ensure(
        part_range(seen.total, h.zone.value, first.value, h.last.value),
        Refusal::Range,
        first.at,
    )?;
    ensure(apart, Refusal::Overlap, first.at)?;
    words_judged(kind, x, zones, limit, h)
}
