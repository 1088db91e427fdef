// Zone records judged one behind the other, by the reader's own tests: each against those before it, and all of them together against the totals.
ghost use Rattle.std.specs.Prelude.{◌≡◌, []};
ghost use Rattle.spots.specs.Heads.{kind_for};
ghost use Rattle.texts.specs.Write.{records_in};
ghost use Rattle.texts.specs.Judged.{element_by, records_by};
ghost use Rattle.texts.specs.Tabled.{fifth_of};
ghost use Rattle.kept.specs.Kept.{listed};
ghost use Rattle.writer.specs.inner.Records.{records_of, kind_in, record_in, tiled_in};

use super::flat::ZONE_WORDS;
use super::section::zone_of;
use super::tables::Totals;
use kept::{Lists, is_clear_by_lists, is_tiled_by_lists};
use listing::{fifth_listed, type_listed};
use mesh::Zone;
use ranges::{part_range, zone_fits};
use sizes::ZONES;
use sofar::{id_of, kind_of};
use spots::Kind;

// The fifth word that a record's section is written with.
fn fifth_of(kind: Kind, d: u32, element: u32) -> u32
    ensures { result ≡ fifth_of (kind_for kind) d element }
{
    match kind {
        Kind::Node => d,
        Kind::Cell | Kind::Face => element,
    }
}

// A node record's element is 0.
fn element_fits(kind: Kind, element: u32) -> bool
    ensures { result ≡ element_by (kind_for kind) element }
{
    kind != Kind::Node || element == 0
}

// Record i of n, of a known kind. The records before it are the first i that are kept.
#[tactic(auto, using(crate::proofs::Judging::id_is), unfolding(texts::specs::Judged::record_by))]
fn kind_fits(kind: Kind, d: u32, total: u32, z: Zone, lists: Lists<'_>, i: usize, n: usize) -> bool
    ensures { result ≡ kind_in (listed lists.entry) (kind_for kind) d total n i z }
{
    let fifth = fifth_of(kind, d, z.element);
    1 <= z.zone
        && element_fits(kind, z.element)
        && part_range(total, z.zone, z.first, z.last)
        && is_clear_by_lists(lists, i, id_of(kind), z.first, z.last)
        && type_listed(kind, z.ztype)
        && fifth_listed(kind, Some(fifth))
        && zone_fits(Some(n), i)
}

#[tactic(auto, unfolding(crate::specs::inner::Records::record_in))]
fn record_fits(totals: Totals, z: Zone, lists: Lists<'_>, i: usize, n: usize) -> bool
    ensures { result ≡ record_in (listed lists.entry) totals n i z }
{
    let d = totals.dimension;
    match kind_of(z.section) {
        Some(Kind::Node) => kind_fits(Kind::Node, d, totals.nodes, z, lists, i, n),
        Some(Kind::Cell) => kind_fits(Kind::Cell, d, totals.cells, z, lists, i, n),
        Some(Kind::Face) => kind_fits(Kind::Face, d, totals.faces, z, lists, i, n),
        None => false,
    }
}

// Whether every declared index is in a record.
#[tactic(auto, unfolding(crate::specs::inner::Records::tiled_in))]
fn all_tiled(totals: Totals, lists: Lists<'_>, n: usize) -> bool
    ensures { result ≡ tiled_in (listed lists.entry) totals n }
{
    is_tiled_by_lists(lists, n, id_of(Kind::Node), totals.nodes)
        && is_tiled_by_lists(lists, n, id_of(Kind::Cell), totals.cells)
        && is_tiled_by_lists(lists, n, id_of(Kind::Face), totals.faces)
}

pub(crate) fn records_fit(totals: Totals, zones: &[u32]) -> bool
    ensures { result ≡ records_by (records_of totals zones.now) [] (records_in zones.now) }
{
    let (rows, _) = zones.as_chunks::<ZONE_WORDS>();
    let n = rows.len();
    let mut ids = [0; ZONES];
    let mut firsts = [0; ZONES];
    let mut lasts = [0; ZONES];
    for (i, row) in rows.iter().enumerate() {
        let z = zone_of(row);
        let before = Lists {
            ids: &ids,
            firsts: &firsts,
            lasts: &lasts,
        };
        if !record_fits(totals, z, before, i, n) {
            return false;
        }
        ids[i] = z.section;
        firsts[i] = z.first;
        lasts[i] = z.last;
    }
    let all = Lists {
        ids: &ids,
        firsts: &firsts,
        lasts: &lasts,
    };
    all_tiled(totals, all, n)
}
