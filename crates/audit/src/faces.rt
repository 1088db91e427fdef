// The pass over the faces: sides are counted, and faults found and laid.
ghost use Rattle.std.specs.Prelude.{◌≡◌, ◌<◌, ◌≤◌, length};
ghost use Rattle.sizes.specs.Sizes.{rows as most};
ghost use Rattle.mesh.specs.Rows.{places, face_words, rows_in, face_at};
ghost use Rattle.faults.specs.Counts.{Tallying};
ghost use Rattle.audit.specs.Steps.{Sound, Faced};

use super::Stand;
use super::counts::{clear, tally_face};
use super::visits::visit;
use faults::Frame;
use mesh::Face;
use records::{Fault, Pen};

// The face row at f, counted from 0. The caller knows that the row is there, so nothing is asked.
fn face_of(rows: &[u32], f: usize) -> Face
    requires { f < rows_in (face_words places) rows.now }
    ensures { result ≡ face_at places rows.now f }
{
    let start = f * mesh::FACE_WORDS;
    let end = start + mesh::FACE_WORDS;
    let row = &rows[start..end];
    Face {
        count: row[0],
        nodes: [row[1], row[2], row[3], row[4]],
        right: row[5],
        left: row[6],
        ztype: row[7],
    }
}

// Counts the sides of the faces from `from` on, up to the first with a fault, and answers that one; `faces`, if all are sound.
// Most faces are sound, so this is the hot loop. The listing of faults stands outside it: inside, it takes the loop's registers. It is called at two places, so that it stays a function of its own.
fn sound_to(frame: Frame, from: usize, faces: usize, rows: &[u32], counts: &mut [u32]) -> usize
    requires { (from ≤ faces) × (faces ≤ most) × (faces ≤ rows_in (face_words places) rows.now) × (frame.cells ≤ length counts.old)
        × Tallying places rows.now faces frame.cells counts.old from counts.old }
    ensures { Sound frame from faces rows.now counts.old counts.new result }
{
    for f in from..faces {
        let face = face_of(rows, f);
        if tally_face(counts, frame, face) {
            return f;
        }
    }
    faces
}

pub(crate) fn audit_faces(
    frame: Frame,
    faces: usize,
    rows: &[u32],
    counts: &mut [u32],
    list: &mut [u8],
) -> Stand
    requires { (faces ≤ most) × (frame.cells ≤ length counts.old) × (faces ≤ rows_in (face_words places) rows.now) }
    ensures { Faced frame faces rows.now counts.old list.old counts.new list.new result }
{
    let cells = frame.cells as usize;
    clear(counts, cells);
    let pen = Pen { at: 0, live: true };
    let mut s = Stand { pen, total: 0 };
    let mut f = sound_to(frame, 0, faces, rows, counts);
    // From one face with a fault to the next. Kinds and positions end where no mark is left: a loop over all of them takes longer.
    'faces: while f < faces {
        let face = face_of(rows, f);
        f += 1;
        let number = f as u32;
        let mut marks = marks::marks_of(frame, face);
        let mut kind: u32 = 1;
        'kinds: while 0 < marks {
            let mut here = marks % 16;
            marks /= 16;
            let mut p: u32 = 0;
            'positions: while 0 < here {
                let fault = Fault {
                    kind,
                    index: number,
                    extra: p,
                };
                s = visit(here % 2, fault, list, s);
                here /= 2;
                p += 1;
            }
            kind += 1;
        }
        f = sound_to(frame, f, faces, rows, counts);
    }
    s
}
