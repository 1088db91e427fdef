// Tests of the table's lines 5 to 7.
ghost use Rattle.std.specs.Prelude.{◌≡◌};
ghost use Rattle.faults.specs.Faults.{is_in, interior, is_same, is_open, is_loose};

use mesh::Face;

pub(crate) fn is_same(face: Face) -> bool
    ensures { result ≡ is_same face }
{
    face.right == face.left && face.right != 0
}

// A type of faces that have a cell on both sides.
#[tactic(auto, unfolding(faults::specs::Faults::is_in))]
pub(crate) fn is_interior(ztype: u32) -> bool
    ensures { result ≡ is_in ztype interior }
{
    ztype == 2 || ztype == 1002
}

pub(crate) fn is_open(cells: u32, face: Face) -> bool
    ensures { result ≡ is_open cells face }
{
    cells != 0 && is_interior(face.ztype) && (face.right == 0 || face.left == 0)
}

pub(crate) fn is_loose(cells: u32, face: Face) -> bool
    ensures { result ≡ is_loose cells face }
{
    cells != 0 && face.right == 0 && face.left == 0
}
