// Sections, from their records and the tables.
ghost use Rattle.std.specs.Prelude.{◌+◌, ◌-◌, ◌*◌, ◌<◌, ◌≤◌, ◌≡◌, length};
ghost use Rattle.texts.specs.Writes.{Each};
ghost use Rattle.texts.specs.Write.{zone_in, records_in};
ghost use Rattle.putting.specs.Putting.{Laid};
ghost use Rattle.writer.specs.inner.Rows.{SomeCorners};
ghost use Rattle.writer.specs.inner.Sections.{PartIn, part_rows, node_section, cell_section, face_section, section_bytes, parts_bytes, Puttable, AllPuttable};
ghost use Rattle.writer.specs.inner.Tables.{held};

use super::cells::put_cells;
use super::faces::put_faces;
use super::flat::ZONE_WORDS;
use super::head::put_head;
use super::nodes::put_nodes;
use super::tables::Tables;
use mesh::Zone;
use putting::put_text;
use sofar::kind_of;
use spots::Kind;

// The rows of a record, of all those in its table.
pub(crate) fn part<T, const N: usize>(table: &[T], z: Zone) -> &[[T; N]]
    requires { (0 < N) × PartIn N z (length table.now) }
    ensures { result.now ≡ part_rows N z table.now }
{
    let (rows, _) = table.as_chunks::<N>();
    &rows[z.first as usize - 1..z.last as usize]
}

fn put_node_section(out: &mut [u8], at: usize, ms: &[i64], es: &[i32], z: Zone, d: u32) -> usize
    requires { PartIn 3 z (length ms.now) × PartIn 3 z (length es.now) × (d ≤ 3) }
    ensures { Laid out.old at (node_section d z ms.now es.now) out.new result }
{
    let a = put_head(out, at, Kind::Node, z, d);
    let b = put_text(out, a, b"(");
    let c = put_nodes(out, b, part(ms, z), part(es, z), d as usize);
    put_text(out, c, b"))\n")
}

fn put_cell_section(out: &mut [u8], at: usize, cells: &[u32], z: Zone) -> usize
    requires { PartIn 2 z (length cells.now) }
    ensures { Laid out.old at (cell_section z cells.now) out.new result }
{
    let a = put_head(out, at, Kind::Cell, z, z.element);
    if z.element == 0 {
        let b = put_text(out, a, b"(");
        let c = put_cells(out, b, part(cells, z));
        return put_text(out, c, b"))\n");
    }
    put_text(out, a, b")\n")
}

fn put_face_section(out: &mut [u8], at: usize, faces: &[u32], z: Zone) -> usize
    requires { PartIn 8 z (length faces.now)
        × Each SomeCorners (part_rows 8 z faces.now) }
    ensures { Laid out.old at (face_section z faces.now) out.new result }
{
    let a = put_head(out, at, Kind::Face, z, z.element);
    let b = put_text(out, a, b"(");
    let c = put_faces(out, b, part(faces, z), z.element == 0);
    put_text(out, c, b"))\n")
}

#[tactic(auto, unfolding(crate::specs::inner::Sections::section_bytes))]
fn put_section(out: &mut [u8], at: usize, tables: Tables<'_>, z: Zone, d: u32) -> usize
    requires { (d ≤ 3) × Puttable (held tables) z }
    ensures { Laid out.old at (section_bytes d (held tables.entry) z) out.new result }
{
    match kind_of(z.section) {
        Some(Kind::Node) => put_node_section(out, at, tables.mantissas, tables.exponents, z, d),
        Some(Kind::Cell) => put_cell_section(out, at, tables.cells, z),
        _ => put_face_section(out, at, tables.faces, z),
    }
}

pub(crate) fn zone_of(row: &[u32; ZONE_WORDS]) -> Zone
    ensures { result ≡ zone_in row.now }
{
    let [section, zone, first, last, ztype, element] = *row;
    Zone {
        section,
        zone,
        first,
        last,
        ztype,
        element,
    }
}

pub(crate) fn put_parts(
    out: &mut [u8],
    at: usize,
    tables: Tables<'_>,
    zones: &[u32],
    d: u32,
) -> usize
    requires { (d ≤ 3) × AllPuttable (held tables) (records_in zones.now) }
    ensures { Laid out.old at (parts_bytes d (held tables.entry) (records_in zones.now)) out.new result }
{
    let (rows, _) = zones.as_chunks();
    let mut c = at;
    for row in rows {
        c = put_section(out, c, tables, zone_of(row), d);
    }
    c
}
