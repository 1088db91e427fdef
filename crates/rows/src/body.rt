// Rows one behind the other.
ghost use Rattle.std.specs.Prelude.{◌≡◌, ◌≤◌, ◌^◌};
ghost use Rattle.std.proofs.lemmas.List.Edits.{sets};
ghost use Rattle.rows.specs.Rows.{rows_at, same_rows};

use super::row::{Form, put_row, width_of};
use mesh::CELL_WORDS;
use stores::store;

fn put_all(s: &[u8], at: usize, form: Form, ztype: u32, n: u32, rows: &mut [u32], k: usize)
    requires { k ≤ 2 ^ 61 }
    ensures { rows.new ≡ sets rows.old k (rows_at s.now form ztype n at) }
{
    let width = width_of(form);
    let mut c = at;
    // The place goes on by a sum: as a product of a row's number and the width it was slower.
    let mut i = k;
    for _row in 0..n {
        c = put_row(s, c, form, ztype, rows, i);
        i += width;
    }
}

// n rows of this form from place k on.
pub fn put_rows(s: &[u8], at: usize, form: Form, ztype: u32, n: u32, rows: &mut [u32], k: usize)
    ensures { rows.new ≡ sets rows.old k (rows_at s.now form ztype n at) }
{
    if k < rows.len() {
        put_all(s, at, form, ztype, n, rows, k);
    }
}

fn put_copies(element: u32, ztype: u32, n: u32, rows: &mut [u32], k: usize)
    requires { k ≤ 2 ^ 61 }
    ensures { rows.new ≡ sets rows.old k (same_rows element ztype n) }
{
    for j in 0..n as usize {
        let i = k + j * CELL_WORDS;
        store(rows, i, element);
        store(rows, i + 1, ztype);
    }
}

// n rows of a cell with this element from place k on.
pub fn put_same(element: u32, ztype: u32, n: u32, rows: &mut [u32], k: usize)
    ensures { rows.new ≡ sets rows.old k (same_rows element ztype n) }
{
    if k < rows.len() {
        put_copies(element, ztype, n, rows, k);
    }
}
