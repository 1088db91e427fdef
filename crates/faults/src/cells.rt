// The table's lines 8 and 9. Each test has a return of its own: as one expression they take longer.
ghost use Rattle.std.specs.Prelude.{◌≡◌, ◌≤◌};
ghost use Rattle.faults.specs.Faults.{wrong_element, sides_for, wrong_sides, any_cell_fault};
ghost use Rattle.faults.specs.Marked.{cell_marks};

use super::Frame;
use super::bits::bit_if;
use mesh::Cell;

#[tactic(auto, unfolding(crate::specs::Faults::wrong_element, crate::specs::Faults::is_in))]
fn wrong_element(dim: u32, element: u32) -> bool
    ensures { result ≡ wrong_element dim element }
{
    if dim == 2 {
        return element != 1 && element != 3;
    }
    if element == 2 {
        return false;
    }
    element < 4 || 6 < element
}

// The sides of an element. No table, which would be built at each use, and no match: its jump is guessed wrongly where elements are mixed.
fn sides_of(element: u32) -> u32
    requires { (1 ≤ element) × (element ≤ 6) }
    ensures { result ≡ sides_for element }
{
    if element == 1 {
        return 3;
    }
    if element < 4 {
        return 4;
    }
    let has_six = element == 4;
    if has_six { 6 } else { 5 }
}

fn wrong_sides(cell: Cell, count: u32) -> bool
    ensures { result ≡ wrong_sides cell count }
{
    let element = cell.element;
    if cell.ztype == 0 {
        return false;
    }
    if element < 1 {
        return false;
    }
    if 6 < element {
        return false;
    }
    count != sides_of(element)
}

// The faults of a cell with so many sides as one number: a bit a kind, kind 8 the lowest.
pub fn cell_marks(frame: Frame, cell: Cell, count: u32) -> u32
    ensures { result ≡ cell_marks frame cell count }
{
    let of_element = bit_if(wrong_element(frame.dim, cell.element), 1);
    let of_sides = bit_if(wrong_sides(cell, count), 2);
    of_element + of_sides
}

// Whether the cell has any fault. A hot test of the audit: most cells have none.
#[tactic(auto, unfolding(crate::specs::Faults::any_cell_fault))]
pub fn any_cell_fault(dim: u32, cell: Cell, count: u32) -> bool
    ensures { result ≡ any_cell_fault dim cell count }
{
    if wrong_element(dim, cell.element) {
        return true;
    }
    wrong_sides(cell, count)
}
