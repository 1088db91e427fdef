// Node rows one behind the other.
ghost use Rattle.std.specs.Prelude.{◌≡◌, ◌≤◌, ◌^◌, length};
ghost use Rattle.mesh.specs.Rows.{node_words};
ghost use Rattle.tokens.specs.Listed.{tokens_from};
ghost use Rattle.points.specs.Points.{both, seen, Kept, set_pairs, point_taken, points_taken, coordinates_in, Puts};

use super::pair::{Lent, put_origins, put_pairs};
use mesh::NODE_WORDS;

// How many coordinates a node row of a mesh of this dimension has.
pub fn coordinates_in(dim: u32) -> u32
    ensures { result ≡ coordinates_in dim }
{
    dim.min(NODE_WORDS as u32)
}

// The row of a node with d coordinates; the others are 0, 0.
fn put_point(s: &[u8], at: usize, d: u32, lent: &mut Lent<'_>, k: usize) -> usize
    requires { (d ≤ node_words) × (k ≤ 2 ^ 62) }
    ensures rows { Puts s.now (point_taken (length s.now) d (tokens_from s.now at)) k (seen lent.old) (seen lent.new) result }
    ensures same_references { Kept lent.old lent.new }
{
    let c = put_pairs(s, at, d, lent, k);
    let used = d as usize;
    put_origins(NODE_WORDS - used, lent, k + used);
    c
}

fn put_all(s: &[u8], at: usize, d: u32, n: u32, lent: &mut Lent<'_>, k: usize)
    requires { (d ≤ node_words) × (k ≤ 2 ^ 61) }
    ensures rows { seen lent.new ≡ set_pairs (seen lent.old) k (points_taken (length s.now) d n (tokens_from s.now at)) }
    ensures same_references { Kept lent.old lent.new }
{
    let mut c = at;
    for j in 0..n as usize {
        c = put_point(s, c, d, lent, k + j * NODE_WORDS);
    }
}

// n rows of a mesh of this dimension from place k on.
pub fn put_points(
    s: &[u8],
    at: usize,
    dim: u32,
    n: u32,
    mantissas: &mut [i64],
    exponents: &mut [i32],
    k: usize,
)
    ensures { both mantissas.new exponents.new ≡ set_pairs (both mantissas.old exponents.old) k (points_taken (length s.now) (coordinates_in dim) n (tokens_from s.now at)) }
{
    let d = coordinates_in(dim);
    let room = mantissas.len().max(exponents.len());
    if k < room {
        let mut lent = Lent {
            mantissas,
            exponents,
        };
        put_all(s, at, d, n, &mut lent, k);
    }
}
