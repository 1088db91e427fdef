// Rows of faces: in a mixed section each with its number of nodes in front.
ghost use Rattle.texts.specs.Writes.{Each};
ghost use Rattle.putting.specs.Putting.{Laid};
ghost use Rattle.writer.specs.inner.Rows.{row_bytes, table_bytes, face_words_of, SomeCorners};

use super::words::lay_words;
use mesh::{FACE_WORDS, PLACES};
use putting::lay_word;

fn put_facet(out: &mut [u8], at: usize, row: &[u32; FACE_WORDS], mixed: bool) -> usize
    requires { SomeCorners row.now }
    ensures { Laid out.old at (row_bytes (face_words_of mixed) row.now) out.new result }
{
    let behind = 1 + row[0] as usize;
    let from = if mixed { 0 } else { 1 };
    let c = lay_words(out, at, b'\n', &row[from..behind]);
    let right = lay_word(out, c, b' ', row[PLACES + 1]);
    lay_word(out, right, b' ', row[PLACES + 2])
}

// Not inlined: measured, its loop is faster with the registers to itself.
#[inline(never)]
pub(crate) fn put_faces(out: &mut [u8], at: usize, rows: &[[u32; FACE_WORDS]], mixed: bool) -> usize
    requires { Each SomeCorners rows.now }
    ensures { Laid out.old at (table_bytes (face_words_of mixed) rows.now) out.new result }
{
    let mut c = at;
    for row in rows {
        c = put_facet(out, c, row, mixed);
    }
    c
}
