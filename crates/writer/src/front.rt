// The dimension and the totals, against the limits and the rows that are lent.
ghost use Rattle.std.specs.Prelude.{◌≡◌, [], ◌&&◌, ◌||◌, eqb, leb};
ghost use Rattle.sizes.specs.Sizes.{rows};
ghost use Rattle.texts.specs.Judged.{front_by};
ghost use Rattle.writer.specs.inner.Tables.{mesh_with};

use super::tables::{Tables, Totals};

fn is_dimension(d: u32) -> bool
    ensures { result ≡ (eqb d 2 || eqb d 3) }
{
    d == 2 || d == 3
}

fn total_fits(total: u32, room: usize) -> bool
    ensures { result ≡ (leb total rows && leb total room) }
{
    total <= sizes::ROWS && total as usize <= room
}

#[tactic(auto, unfolding(texts::specs::Judged::front_by))]
pub(crate) fn front_fits(totals: Totals, tables: Tables<'_>) -> bool
    ensures { result ≡ front_by (mesh_with totals tables.entry []) }
{
    let mantissas = tables.mantissas.len() / mesh::NODE_WORDS;
    let exponents = tables.exponents.len() / mesh::NODE_WORDS;
    is_dimension(totals.dimension)
        && total_fits(totals.nodes, mantissas.min(exponents))
        && total_fits(totals.cells, tables.cells.len() / mesh::CELL_WORDS)
        && total_fits(totals.faces, tables.faces.len() / mesh::FACE_WORDS)
}
