// Tests of the table's lines 1 and 2.
ghost use Rattle.std.specs.Prelude.{◌≡◌};
ghost use Rattle.mesh.specs.Rows.{places};
ghost use Rattle.faults.specs.Faults.{looked_at, wrong_count, wrong_node};

const PLACES: u32 = mesh::PLACES as u32;

#[tactic(auto, unfolding(faults::specs::Faults::looked_at))]
pub(crate) fn looked_at(count: u32) -> u32
    ensures { result ≡ looked_at places count }
{
    if 2 <= count && count <= PLACES {
        count
    } else {
        0
    }
}

#[tactic(auto, unfolding(faults::specs::Faults::wrong_count))]
pub(crate) fn wrong_count(dim: u32, count: u32) -> bool
    ensures { result ≡ wrong_count places dim count }
{
    if dim == 2 {
        count != 2
    } else {
        count < 3 || PLACES < count
    }
}

pub(crate) fn wrong_node(nodes: u32, node: u32) -> bool
    ensures { result ≡ wrong_node nodes node }
{
    node == 0 || nodes < node
}
