// What the sections so far leave behind, and what is asked of a section by its kind.
#![tactic(auto)]

ghost use Rattle.std.specs.Prelude.{◌≡◌};
ghost use Rattle.sofar.specs.Sofar.{seen_of, id_for, kind_for_id, room_of, count_for};

use spots::Kind;

// Of one kind: whether it was declared, and its total.
#[derive(Clone, Copy, Debug, PartialEq, Eq)]
pub struct Seen {
    pub declared: bool,
    pub total: u32,
}

// What the sections so far leave behind, their ranges aside. The dimension is 0 where none is known, as the definitions have it, and as a file may write it.
#[derive(Clone, Copy, Debug, PartialEq, Eq)]
pub struct State {
    pub dim: u32,
    pub nodes: Seen,
    pub cells: Seen,
    pub faces: Seen,
    pub zones: u32,
}

impl State {
    // What is known of a kind.
    pub fn seen(self, kind: Kind) -> Seen
        ensures { result ≡ seen_of self kind }
    {
        match kind {
            Kind::Node => self.nodes,
            Kind::Cell => self.cells,
            Kind::Face => self.faces,
        }
    }
}

// The most whole rows of each kind, and the most zone records; none is no limit.
#[derive(Clone, Copy, Debug, PartialEq, Eq)]
pub struct Room {
    pub nodes: Option<usize>,
    pub cells: Option<usize>,
    pub faces: Option<usize>,
    pub zones: Option<usize>,
}

impl Room {
    // The most rows of a kind.
    pub fn rows(self, kind: Kind) -> Option<usize>
        ensures { result ≡ room_of self kind }
    {
        match kind {
            Kind::Node => self.nodes,
            Kind::Cell => self.cells,
            Kind::Face => self.faces,
        }
    }
}

pub fn id_of(kind: Kind) -> u32
    ensures { result ≡ id_for kind }
{
    match kind {
        Kind::Node => 10,
        Kind::Cell => 12,
        Kind::Face => 13,
    }
}

// The kind whose sections have this id, if one has.
pub fn kind_of(id: u32) -> Option<Kind>
    ensures { result ≡ kind_for_id id }
{
    match id {
        10 => Some(Kind::Node),
        12 => Some(Kind::Cell),
        13 => Some(Kind::Face),
        _ => None,
    }
}

// How many indices a range has; none where it begins below 1 or ends before it begins.
pub fn count_of(first: u32, last: u32) -> u32
    ensures { result ≡ count_for first last }
{
    if 1 <= first && first <= last {
        last - first + 1
    } else {
        0
    }
}
