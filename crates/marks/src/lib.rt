// The faults of a face as one number: a bit a position, four bits a kind, those of its nodes and above them those of its sides.
#![tactic(auto)]

ghost use Rattle.std.specs.Prelude.{◌≡◌};
ghost use Rattle.mesh.specs.Rows.{places};
ghost use Rattle.faults.specs.Marked.{marks_of};

use faults::Frame;
use mesh::Face;

// The marks of the sides stand above those of the nodes, which are three kinds of four bits.
const ABOVE_NODES: u32 = 4096;

pub fn marks_of(frame: Frame, face: Face) -> u32
    ensures { result ≡ marks_of places frame face }
{
    let of_nodes = nodefaults::node_part(frame, face);
    let of_sides = sidefaults::side_part(frame, face);
    of_nodes + ABOVE_NODES * of_sides
}
