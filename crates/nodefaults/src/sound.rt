// Whether a face has any fault of its nodes. A hot test of the audit, without a loop.
ghost use Rattle.std.specs.Prelude.{◌≡◌, ◌||◌, eqb, [], ◌∷◌};
ghost use Rattle.mesh.specs.Rows.{places};
ghost use Rattle.faults.specs.Faults.{wrong_node, is_in, node_fault};

use super::faces::wrong_node;
use faults::Frame;
use mesh::Face;

fn wrong_pair(nodes: u32, a: u32, b: u32) -> bool
    ensures { result ≡ (eqb a b || (wrong_node nodes a || wrong_node nodes b)) }
{
    a == b || wrong_node(nodes, a) || wrong_node(nodes, b)
}

#[tactic(auto, unfolding(faults::specs::Faults::is_in))]
fn wrong_third(nodes: u32, a: u32, b: u32, c: u32) -> bool
    ensures { result ≡ (wrong_node nodes c || is_in c (a ∷ b ∷ [])) }
{
    wrong_node(nodes, c) || [a, b].contains(&c)
}

#[tactic(auto, unfolding(faults::specs::Faults::is_in))]
fn wrong_fourth(nodes: u32, a: u32, b: u32, c: u32, d: u32) -> bool
    ensures { result ≡ (wrong_node nodes d || is_in d (a ∷ b ∷ c ∷ [])) }
{
    wrong_node(nodes, d) || [a, b, c].contains(&d)
}

// Whether the face has a fault of the kinds 1 to 3. With a wrong count it has one anyway, so it does not matter then which nodes are looked at.
pub fn any_node_fault(frame: Frame, face: Face) -> bool
    ensures { result ≡ node_fault places frame face }
{
    let nodes = frame.nodes;
    let row = face.nodes;
    let a = row[0];
    let b = row[1];
    let c = row[2];
    if wrong_pair(nodes, a, b) {
        return true;
    }
    if frame.dim == 2 {
        return face.count != 2;
    }
    if wrong_third(nodes, a, b, c) {
        return true;
    }
    if face.count == 3 {
        return false;
    }
    if face.count == 4 {
        let d = row[3];
        return wrong_fourth(nodes, a, b, c, d);
    }
    true
}
