// The faults of a face's sides as one number: a bit a side, four bits a kind. They are made only where there is such a fault.
ghost use Rattle.std.specs.Prelude.{◌≡◌};
ghost use Rattle.mesh.specs.Rows.{places};
ghost use Rattle.faults.specs.Marked.{side_part};

use super::faces::{is_loose, is_open, is_same};
use super::sound::any_side_fault;
use faults::{Frame, bit_if};
use mesh::Face;

// Kind 4 has two bits, one a side; the others have one each.
#[tactic(auto, using(faults::proofs::Sides::one_most))]
pub fn side_part(frame: Frame, face: Face) -> u32
    ensures { result ≡ side_part places frame face }
{
    let faulty = any_side_fault(frame, face);
    if faulty {
        let cells = frame.cells;
        let right = bit_if(cells < face.right, 1);
        let left = bit_if(cells < face.left, 2);
        let same = bit_if(is_same(face), 16);
        let open = bit_if(is_open(cells, face), 256);
        let loose = bit_if(is_loose(cells, face), 4096);
        return right + left + same + open + loose;
    }
    0
}
