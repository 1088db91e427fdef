// How much the slices that are lent have room for.
ghost use Rattle.std.specs.Prelude.{◌≡◌};
ghost use Rattle.tables.specs.Places.{room_from};

use mesh::{CELL_WORDS, FACE_WORDS, NODE_WORDS};
use sofar::Room;

// Whole rows in slices of these lengths. Nodes have two slices: the smaller number of rows counts.
pub fn room_for(
    mantissas: usize,
    exponents: usize,
    faces: usize,
    cells: usize,
    zones: usize,
) -> Room
    ensures { result ≡ room_from mantissas exponents faces cells zones }
{
    Room {
        nodes: Some((mantissas / NODE_WORDS).min(exponents / NODE_WORDS)),
        cells: Some(cells / CELL_WORDS),
        faces: Some(faces / FACE_WORDS),
        zones: Some(zones),
    }
}
