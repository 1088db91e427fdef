// The whole text of a mesh.
ghost use Rattle.std.specs.Prelude.{◌/◌, ◌≤◌, length};
ghost use Rattle.texts.specs.Write.{records_in};
ghost use Rattle.sofar.specs.Sofar.{id_for};
ghost use Rattle.putting.specs.Putting.{Laid};
ghost use Rattle.writer.specs.inner.Sections.{decl_bytes, mesh_bytes, AllPuttable};
ghost use Rattle.writer.specs.inner.Tables.{held};

use super::head::put_head;
use super::section::put_parts;
use super::tables::{Tables, Totals};
use mesh::Zone;
use putting::{put_hex, put_text};
use spots::Kind;

// A declaration: the header of a zone 0 from 1 to the total.
fn put_decl(out: &mut [u8], at: usize, kind: Kind, total: u32, fifth: u32) -> usize
    ensures { Laid out.old at (decl_bytes (id_for kind) total fifth) out.new result }
{
    let all = Zone {
        section: 0,
        zone: 0,
        first: 1,
        last: total,
        ztype: 0,
        element: 0,
    };
    let a = put_head(out, at, kind, all, fifth);
    put_text(out, a, b")\n")
}

pub(crate) fn put_mesh(out: &mut [u8], totals: Totals, tables: Tables<'_>, zones: &[u32]) -> usize
    requires { (totals.dimension ≤ 3) × AllPuttable (held tables) (records_in zones.now) }
    ensures { Laid out.old 0 (mesh_bytes totals (held tables.entry) zones.now) out.new result }
{
    let d = totals.dimension;
    let a = put_text(out, 0, b"(2 ");
    let b = put_hex(out, a, u64::from(d));
    let c = put_text(out, b, b")\n");
    let e = put_decl(out, c, Kind::Node, totals.nodes, d);
    let f = put_decl(out, e, Kind::Cell, totals.cells, 0);
    let g = put_decl(out, f, Kind::Face, totals.faces, 0);
    put_parts(out, g, tables, zones, d)
}
