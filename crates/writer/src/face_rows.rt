// Rows of faces that a text can give: each as its section's element and type have it.
ghost use Rattle.std.specs.Prelude.{◌≡◌, take, drop};
ghost use Rattle.std.specs.List.{list_all};
ghost use Rattle.mesh.specs.Rows.{places};
ghost use Rattle.texts.specs.Judged.{zero_by, count_by, face_by};

use mesh::{FACE_WORDS, PLACES};

// The place of a row's type: the last word.
const TYPE_AT: usize = FACE_WORDS - 1;

fn count_fits(element: u32, count: u32) -> bool
    ensures { result ≡ count_by element count }
{
    if element == 0 {
        return 2 <= count && count <= PLACES as u32;
    }
    count == element
}

// Are the places behind the row's nodes 0?
fn unused_zero(row: &[u32; FACE_WORDS], count: usize) -> bool
    ensures { result ≡ list_all zero_by (drop count (take places (drop 1 row.now))) }
{
    let used = count.min(PLACES);
    row[1 + used..1 + PLACES].iter().all(|node| *node == 0)
}

// That each word is short enough to be written needs no test: it is a u32.
#[tactic(auto, using(crate::proofs::RowTests::face_is))]
fn face_fits(row: &[u32; FACE_WORDS], element: u32, ztype: u32) -> bool
    ensures { result ≡ face_by element ztype row.now }
{
    let count = row[0];
    count_fits(element, count) && unused_zero(row, count as usize) && row[TYPE_AT] == ztype
}

pub(crate) fn faces_fit(rows: &[[u32; FACE_WORDS]], element: u32, ztype: u32) -> bool
    ensures { result ≡ list_all (face_by element ztype) rows.now }
{
    rows.iter().all(|row| face_fits(row, element, ztype))
}
