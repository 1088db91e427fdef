// Rows of nodes that a text can give: canonical pairs, and 0, 0 where the mesh has no dimension.
ghost use Rattle.std.specs.Prelude.{◌≡◌, cond, ltb, zip, length};
ghost use Rattle.std.specs.List.{list_all};
ghost use Rattle.mesh.specs.Rows.{node_words};
ghost use Rattle.texts.specs.Judged.{canonical_by, nought_by, pairs_by};

use decimals::magnitude;
use mesh::NODE_WORDS;

// The first number with one digit more than a mantissa may have.
const OVER: u64 = 1000000000000000000;

// One form for each number: no 0 at the mantissa's end, and zero itself is 0, 0.
#[tactic(auto, unfolding(texts::specs::Judged::canonical_by))]
fn is_canonical(m: i64, e: i32) -> bool
    ensures { result ≡ canonical_by m e }
{
    let size = magnitude(m);
    if size == 0 {
        return e == 0;
    }
    if size % 10 == 0 {
        return false;
    }
    if OVER <= size {
        return false;
    }
    -400 <= e && e <= 400
}

fn is_nought(m: i64, e: i32) -> bool
    ensures { result ≡ nought_by m e }
{
    m == 0 && e == 0
}

// Of a node's pairs the first ones are its coordinates.
fn pair_fits(m: i64, e: i32, i: usize, d: usize) -> bool
    ensures { result ≡ cond (ltb i d) (canonical_by m e) (nought_by m e) }
{
    if i < d {
        return is_canonical(m, e);
    }
    is_nought(m, e)
}

#[tactic(auto, using(crate::proofs::NodeTests::pairs_is))]
fn pairs_fit(ms: &[i64; NODE_WORDS], es: &[i32; NODE_WORDS], d: usize) -> bool
    ensures { result ≡ pairs_by node_words d ms.now es.now }
{
    pair_fits(ms[0], es[0], 0, d) && pair_fits(ms[1], es[1], 1, d) && pair_fits(ms[2], es[2], 2, d)
}

// Each row of mantissas has its row of exponents.
pub(crate) fn nodes_fit(ms: &[[i64; NODE_WORDS]], es: &[[i32; NODE_WORDS]], d: usize) -> bool
    ensures { result ≡ list_all (λ row. pairs_by node_words d row.0 row.1) (zip ms.now es.now) }
{
    ms.iter().zip(es).all(|(m, e)| pairs_fit(m, e, d))
}
