// A text read and audited, and what is printed of it.
ghost use Rattle.std.specs.Prelude.{◌≡◌, [], ◌∷◌, replicate};
ghost use Rattle.facts.specs.Text.{bytes};
ghost use Rattle.mesh.specs.Rows.{places};
ghost use Rattle.layout.specs.Replies.{number_of};
ghost use Rattle.audit.specs.Audit.{tables, audit_of};
ghost use Rattle.lines.specs.Writing.{Wrote, line};
ghost use Rattle.report.specs.Report.{audited, report_of};

use layout::Refusal;
use lines::{put_line, put_total};

fn put_refusal(out: &mut [u8], why: Refusal, section: u32, offset: usize) -> usize
    ensures { Wrote out.old 0 (line (bytes "refused") (number_of why ∷ section ∷ offset ∷ [])) out.new result }
{
    let number = numbering::number_of(why) as usize;
    let k = section as usize;
    put_line(out, b"refused", number, k, offset)
}

fn put_clean(out: &mut [u8], nodes: u32, faces: u32, cells: u32) -> usize
    ensures { Wrote out.old 0 (line (bytes "clean") (nodes ∷ faces ∷ cells ∷ [])) out.new result }
{
    let n = nodes as usize;
    let f = faces as usize;
    let c = cells as usize;
    put_line(out, b"clean", n, f, c)
}

// The tables of an accepted file, audited with a list of 4,096 bytes.
fn put_audit(
    out: &mut [u8],
    dim: u32,
    nodes: u32,
    faces: u32,
    cells: u32,
    face_rows: &[u32],
    cell_rows: &[u32],
) -> usize
    ensures { Wrote out.old 0 (audited (audit_of places (tables dim nodes faces cells face_rows.now cell_rows.now) (replicate 1024 0) (replicate 4096 0)) nodes faces cells) out.new result }
{
    let mut counts: [u32; 1024] = [0; 1024];
    let mut list: [u8; 4096] = [0; 4096];
    let a = audit::audit(
        dim,
        nodes,
        faces,
        cells,
        face_rows,
        cell_rows,
        &mut counts,
        &mut list,
    );
    match a {
        Err(_) => put_clean(out, nodes, faces, cells),
        Ok(done) => {
            let is_clean = done.total == 0;
            if is_clean {
                put_clean(out, nodes, faces, cells)
            } else {
                put_total(out, done.total, &list[..done.bytes])
            }
        }
    }
}

// What the report program prints of a text: as many of its bytes as `out` has room for. Answers how many these are.
pub fn report(text: &[u8], out: &mut [u8]) -> usize
    ensures { Wrote out.old 0 (report_of text.now) out.new result }
{
    let mut mantissas: [i64; 3072] = [0; 3072];
    let mut exponents: [i32; 3072] = [0; 3072];
    let mut faces: [u32; 8192] = [0; 8192];
    let mut cells: [u32; 2048] = [0; 2048];
    let found = filling::read_flat(
        text,
        &mut mantissas,
        &mut exponents,
        &mut faces,
        &mut cells,
        64,
    );
    match found.reply {
        Err(refused) => put_refusal(out, refused.why, refused.section, refused.offset),
        Ok(mesh) => put_audit(
            out, mesh.dim, mesh.nodes, mesh.faces, mesh.cells, &faces, &cells,
        ),
    }
}
