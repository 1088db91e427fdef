// Rows of nodes: as many coordinates each as the mesh has dimensions.
ghost use Rattle.std.specs.Prelude.{◌≤◌, ◌≡◌, length};
ghost use Rattle.putting.specs.Putting.{Laid};
ghost use Rattle.writer.specs.inner.Rows.{pairs_bytes, nodes_bytes};

use super::words::lay_coordinate;
use mesh::NODE_WORDS;

fn put_point(
    out: &mut [u8],
    at: usize,
    ms: &[i64; NODE_WORDS],
    es: &[i32; NODE_WORDS],
    d: usize,
) -> usize
    requires { d ≤ 3 }
    ensures { Laid out.old at (pairs_bytes 10 d ms.now es.now) out.new result }
{
    let mut c = at;
    let mut b = b'\n';
    for (&m, &e) in ms[..d].iter().zip(&es[..d]) {
        c = lay_coordinate(out, c, b, m, e);
        b = b' ';
    }
    c
}

// Each row of mantissas has its row of exponents. Not inlined: measured, its loop is faster with the registers to itself.
#[inline(never)]
pub(crate) fn put_nodes(
    out: &mut [u8],
    at: usize,
    ms: &[[i64; NODE_WORDS]],
    es: &[[i32; NODE_WORDS]],
    d: usize,
) -> usize
    requires { (d ≤ 3) × (length ms.now ≡ length es.now) }
    ensures { Laid out.old at (nodes_bytes d ms.now es.now) out.new result }
{
    let mut c = at;
    for (m, e) in ms.iter().zip(es) {
        c = put_point(out, c, m, e, d);
    }
    c
}
