// The exported calls. None asks anything of its arguments.
ghost use Rattle.std.specs.Prelude.{◌≡◌};
ghost use Rattle.mesh.specs.Rows.{places};
ghost use Rattle.audit.specs.Audit.{tables};
ghost use Rattle.lines.specs.Writing.{Wrote};
ghost use Rattle.report.specs.Report.{report_of};
ghost use Rattle.writer.specs.Writer.{flat_mesh};
ghost use Rattle.boundary.specs.Flat.{Left, read_left, Kept, audit_kept, Written, write_left};

use answers::{answer_audit, answer_read, answer_write};
use stores::copy_into;

// Words in a zone record.
const ZONE_WORDS: usize = 6;

// Reads a mesh into lent tables. Answers 0, or the number of the refusal.
#[unsafe(no_mangle)]
pub extern "C" fn ravneket_read(
    text: &[u8],
    mantissas: &mut [i64],
    exponents: &mut [i32],
    faces: &mut [u32],
    cells: &mut [u32],
    zones: &mut [u32],
    answer: &mut [u64],
) -> u32
    ensures { ◌≡◌ {A = Left} (record { number = result; answer = answer.new; held = record { mantissas = mantissas.new; exponents = exponents.new; faces = faces.new; cells = cells.new }; zones = zones.new }) (read_left text.now (record { mantissas = mantissas.old; exponents = exponents.old; faces = faces.old; cells = cells.old }) zones.old answer.old) }
{
    let room = zones.len() / ZONE_WORDS;
    let found = filling::read_flat(text, mantissas, exponents, faces, cells, room);
    let flat = found.flat;
    let used = ZONE_WORDS * found.zones;
    copy_into(&flat[..used], zones);
    let reply = found.reply;
    answer_read(reply, answer)
}

// Audits lent tables. Answers 0, or the number of the refusal.
#[unsafe(no_mangle)]
pub extern "C" fn ravneket_audit(
    dimension: u32,
    nodes: u32,
    faces: u32,
    cells: u32,
    face_rows: &[u32],
    cell_rows: &[u32],
    counts: &mut [u32],
    list: &mut [u8],
    answer: &mut [u64],
) -> u32
    ensures { ◌≡◌ {A = Kept} (record { number = result; answer = answer.new; counts = counts.new; list = list.new }) (audit_kept (tables dimension nodes faces cells face_rows.now cell_rows.now) counts.old list.old answer.old) }
{
    let audited = audit::audit(
        dimension, nodes, faces, cells, face_rows, cell_rows, counts, list,
    );
    answer_audit(audited, answer)
}

// Writes the text of lent tables. Answers 0, or the number of the refusal.
#[unsafe(no_mangle)]
pub extern "C" fn ravneket_write(
    dimension: u32,
    nodes: u32,
    faces: u32,
    cells: u32,
    mantissas: &[i64],
    exponents: &[i32],
    facerows: &[u32],
    cellrows: &[u32],
    zones: &[u32],
    text: &mut [u8],
    answer: &mut [u64],
) -> u32
    ensures { ◌≡◌ {A = Written} (record { number = result; answer = answer.new; text = text.new }) (write_left (flat_mesh dimension nodes faces cells mantissas.now exponents.now facerows.now cellrows.now zones.now) text.old answer.old) }
{
    let written = writer::write_flat(
        dimension, nodes, faces, cells, mantissas, exponents, facerows, cellrows, zones, text,
    );
    answer_write(written, answer)
}

// What the report program prints of a text: as many bytes as `out` has room for. Answers how many these are.
#[unsafe(no_mangle)]
pub extern "C" fn ravneket_report(text: &[u8], out: &mut [u8]) -> usize
    ensures { Wrote out.old 0 (report_of text.now) out.new result }
{
    report::report(text, out)
}
