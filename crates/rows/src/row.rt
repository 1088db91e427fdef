// The row of one face or of one cell.
ghost use Rattle.std.specs.Prelude.{◌≡◌, ◌≤◌, ◌^◌};
ghost use Rattle.mesh.specs.Rows.{places};
ghost use Rattle.rows.specs.Words.{Puts};
ghost use Rattle.rows.specs.Rows.{corners_of, facing_at, mixed_at, element_at, row_at, width_of};

use super::words::{count_at, put_words, put_zeros};
use mesh::{CELL_WORDS, FACE_WORDS, PLACES};
use stores::store;

// What a row is: a face of n nodes, a face that says how many it has, a cell that says its element.
#[derive(Clone, Copy)]
pub enum Form {
    Facing(u32),
    Mixed,
    Element,
}

// More nodes than a row has places for stand in no good file: none are read then.
fn corners_of(n: u32) -> u32
    ensures { result ≡ corners_of n }
{
    if n as usize <= PLACES { n } else { 0 }
}

// The row of a face of n nodes: their count, the nodes, zeros in the places that are left, the two cells, the type.
fn put_facing(s: &[u8], at: usize, n: u32, ztype: u32, rows: &mut [u32], k: usize) -> usize
    requires { (n ≤ places) × (k ≤ 2 ^ 62) }
    ensures { Puts (facing_at s.now n ztype at) k rows.old rows.new result }
{
    store(rows, k, n);
    let nodes = k + 1;
    let used = n as usize;
    let c = put_words(s, at, n, rows, nodes);
    put_zeros(rows, nodes + used, PLACES - used);
    let d = put_words(s, c, 2, rows, nodes + PLACES);
    store(rows, k + FACE_WORDS - 1, ztype);
    d
}

// A face that says its number of nodes.
fn put_mixed(s: &[u8], at: usize, ztype: u32, rows: &mut [u32], k: usize) -> usize
    requires { k ≤ 2 ^ 62 }
    ensures { Puts (mixed_at s.now ztype at) k rows.old rows.new result }
{
    let v = count_at(s, at);
    let n = corners_of(v.value);
    put_facing(s, v.next, n, ztype, rows, k)
}

// A cell that says its element.
fn put_element(s: &[u8], at: usize, ztype: u32, rows: &mut [u32], k: usize) -> usize
    requires { k ≤ 2 ^ 62 }
    ensures { Puts (element_at s.now ztype at) k rows.old rows.new result }
{
    let v = count_at(s, at);
    store(rows, k, v.value);
    store(rows, k + 1, ztype);
    v.next
}

pub(crate) fn put_row(
    s: &[u8],
    at: usize,
    form: Form,
    ztype: u32,
    rows: &mut [u32],
    k: usize,
) -> usize
    requires { k ≤ 2 ^ 62 }
    ensures { Puts (row_at s.now form ztype at) k rows.old rows.new result }
{
    match form {
        Form::Facing(n) => {
            let m = corners_of(n);
            put_facing(s, at, m, ztype, rows, k)
        }
        Form::Mixed => put_mixed(s, at, ztype, rows, k),
        Form::Element => put_element(s, at, ztype, rows, k),
    }
}

pub(crate) fn width_of(form: Form) -> usize
    ensures { result ≡ width_of form }
{
    match form {
        Form::Facing(_) | Form::Mixed => FACE_WORDS,
        Form::Element => CELL_WORDS,
    }
}
