// Whether a face has any fault of its sides. A hot test of the audit, without a loop.
ghost use Rattle.std.specs.Prelude.{◌≡◌};
ghost use Rattle.mesh.specs.Rows.{places};
ghost use Rattle.faults.specs.Faults.{side_fault};

use super::faces::is_interior;
use faults::Frame;
use mesh::Face;

// Whether the face has a fault of the kinds 4 to 7. A face without a left cell is asked for early: on the boundary each is one.
pub fn any_side_fault(frame: Frame, face: Face) -> bool
    ensures { result ≡ side_fault places frame face }
{
    let cells = frame.cells;
    let right = face.right;
    let left = face.left;
    if cells < right {
        return true;
    }
    if left == 0 {
        if right == 0 {
            return cells != 0;
        }
        return is_interior(face.ztype);
    }
    if cells < left {
        return true;
    }
    if right == 0 {
        return is_interior(face.ztype);
    }
    right == left
}
