// The types and elements that a section may have.
ghost use Rattle.std.specs.Prelude.{◌≡◌};
ghost use Rattle.layout.specs.State.{among, type_listed, fifth_listed};
ghost use Rattle.spots.specs.Heads.{kind_for, fifth_for};

use dims::dim_listed;
use spots::Kind;

const NODE_TYPES: [u32; 3] = [0, 1, 2];

const CELL_TYPES: [u32; 3] = [0, 1, 32];

const FACE_TYPES: [u32; 30] = [
    2, 3, 4, 5, 7, 8, 9, 10, 12, 14, 20, 24, 31, 36, 37, 1002, 1003, 1004, 1005, 1007, 1008, 1009,
    1010, 1012, 1014, 1020, 1024, 1031, 1036, 1037,
];

const ELEMENTS: [u32; 7] = [0, 1, 2, 3, 4, 5, 6];

const FACINGS: [u32; 4] = [0, 2, 3, 4];

fn is_in(list: &[u32], t: u32) -> bool
    ensures { result ≡ among list.now t }
{
    list.contains(&t)
}

pub fn type_listed(kind: Kind, t: u32) -> bool
    ensures { result ≡ type_listed (kind_for kind) t }
{
    match kind {
        Kind::Node => is_in(&NODE_TYPES, t),
        Kind::Cell => is_in(&CELL_TYPES, t),
        Kind::Face => is_in(&FACE_TYPES, t),
    }
}

// Cells and faces must have a fifth word, nodes need not.
pub fn fifth_listed(kind: Kind, v: Option<u32>) -> bool
    ensures { result ≡ fifth_listed (kind_for kind) (fifth_for v) }
{
    match kind {
        Kind::Node => dim_listed(v),
        Kind::Cell => v.is_some_and(|e| is_in(&ELEMENTS, e)),
        Kind::Face => v.is_some_and(|e| is_in(&FACINGS, e)),
    }
}
