// Rows of cells that have an element each.
ghost use Rattle.putting.specs.Putting.{Laid};
ghost use Rattle.writer.specs.inner.Rows.{table_bytes, cell_words_of};

use mesh::CELL_WORDS;
use putting::lay_word;

// Not inlined: measured, its loop is faster with the registers to itself.
#[inline(never)]
pub(crate) fn put_cells(out: &mut [u8], at: usize, rows: &[[u32; CELL_WORDS]]) -> usize
    ensures { Laid out.old at (table_bytes cell_words_of rows.now) out.new result }
{
    let mut c = at;
    for row in rows {
        c = lay_word(out, c, b'\n', row[0]);
    }
    c
}
