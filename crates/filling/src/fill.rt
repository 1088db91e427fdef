// The second pass: the regular sections of a file that is known to be good, each at its place, into the tables. It refuses nothing.
ghost use Rattle.std.specs.Prelude.{◌≤◌};
ghost use Rattle.mesh.specs.Rows.{node_words};
ghost use Rattle.sizes.specs.Sizes.{zones};
ghost use Rattle.filling.specs.Passing.{Fills, tabled, Kept};

use super::parts::{Lent, section_into};

// n sections stand at the first n places. Nodes have d coordinates. The list takes six words for each section.
pub(crate) fn fill_tables(s: &[u8], places: &[u32; 64], n: usize, d: u32, lent: &mut Lent<'_>)
    requires { (n ≤ zones) × (d ≤ node_words) }
    ensures rows { Fills s.now places.now n d (tabled lent.old) (tabled lent.new) }
    ensures same_references { Kept lent.old lent.new }
{
    for z in 0..n {
        let at = places[z] as usize;
        section_into(s, at, d, z, lent);
    }
}
