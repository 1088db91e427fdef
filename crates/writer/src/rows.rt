// The rows of every record, judged by it.
ghost use Rattle.std.specs.Prelude.{◌+◌, ◌-◌, ◌*◌, ◌/◌, ◌≤◌, ◌≡◌, [], length};
ghost use Rattle.layout.specs.Items.{node, cell, face};
ghost use Rattle.texts.specs.Judged.{all_by, rows_by, rows_fit};
ghost use Rattle.texts.specs.Write.{records_in};
ghost use Rattle.writer.specs.Writer.{lent};
ghost use Rattle.writer.specs.inner.Sections.{PartIn, Ranged, AllRanged};
ghost use Rattle.writer.specs.inner.Tables.{held};

use super::cell_rows::cells_fit;
use super::face_rows::faces_fit;
use super::node_rows::nodes_fit;
use super::section::{part, zone_of};
use super::tables::Tables;
use mesh::Zone;
use sofar::kind_of;
use spots::Kind;

fn node_section_fits(ms: &[i64], es: &[i32], z: Zone, d: u32) -> bool
    requires { PartIn 3 z (length ms.now) × PartIn 3 z (length es.now) }
    ensures { result ≡ rows_by node d (lent ms.now es.now [] [] []) z }
{
    nodes_fit(part(ms, z), part(es, z), d as usize)
}

fn cell_section_fits(cells: &[u32], z: Zone) -> bool
    requires { PartIn 2 z (length cells.now) }
    ensures { result ≡ rows_by cell 0 (lent [] [] [] cells.now []) z }
{
    cells_fit(part(cells, z), z.element, z.ztype)
}

fn face_section_fits(faces: &[u32], z: Zone) -> bool
    requires { PartIn 8 z (length faces.now) }
    ensures { result ≡ rows_by face 0 (lent [] [] faces.now [] []) z }
{
    faces_fit(part(faces, z), z.element, z.ztype)
}

#[tactic(auto, unfolding(texts::specs::Judged::rows_fit))]
fn section_fits(tables: Tables<'_>, z: Zone, d: u32) -> bool
    requires { Ranged (held tables) z }
    ensures { result ≡ rows_fit d (held tables.entry) z }
{
    match kind_of(z.section) {
        Some(Kind::Node) => node_section_fits(tables.mantissas, tables.exponents, z, d),
        Some(Kind::Cell) => cell_section_fits(tables.cells, z),
        Some(Kind::Face) => face_section_fits(tables.faces, z),
        None => false,
    }
}

pub(crate) fn rows_fit(tables: Tables<'_>, zones: &[u32], d: u32) -> bool
    requires { AllRanged (held tables) (records_in zones.now) }
    ensures { result ≡ all_by (rows_fit d (held tables.entry)) (records_in zones.now) }
{
    let (rows, _) = zones.as_chunks();
    for row in rows {
        if !section_fits(tables, zone_of(row), d) {
            return false;
        }
    }
    true
}
