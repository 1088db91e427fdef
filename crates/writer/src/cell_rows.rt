// Rows of cells that a text can give: each as its section's element and type have it.
ghost use Rattle.std.specs.Prelude.{◌≡◌};
ghost use Rattle.std.specs.List.{list_all};
ghost use Rattle.texts.specs.Judged.{cell_element_by, cell_by};

use mesh::CELL_WORDS;

// Elements are numbered from 1 to this.
const ELEMENTS: u32 = 6;

// An element, where the section has it or is mixed.
fn element_fits(element: u32, cell: u32) -> bool
    ensures { result ≡ cell_element_by element cell }
{
    if element == 0 {
        return 1 <= cell && cell <= ELEMENTS;
    }
    cell == element
}

#[tactic(auto, unfolding(texts::specs::Judged::cell_by))]
fn cell_fits(row: &[u32; CELL_WORDS], element: u32, ztype: u32) -> bool
    ensures { result ≡ cell_by element ztype row.now }
{
    element_fits(element, row[0]) && row[1] == ztype
}

pub(crate) fn cells_fit(rows: &[[u32; CELL_WORDS]], element: u32, ztype: u32) -> bool
    ensures { result ≡ list_all (cell_by element ztype) rows.now }
{
    rows.iter().all(|row| cell_fits(row, element, ztype))
}
