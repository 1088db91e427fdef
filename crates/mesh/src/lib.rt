// What a mesh is made of: rows of the tables as values, and the zone record. No function: the audit takes rows apart, the reader stores them word by word.
#![tactic(auto)]

// Places for nodes in a face row.
pub const PLACES: usize = 4;

// Words in a face row, in a cell row, and numbers of each sort in a node row.
pub const FACE_WORDS: usize = 8;

pub const CELL_WORDS: usize = 2;

pub const NODE_WORDS: usize = 3;

#[derive(Clone, Copy)]
pub struct Face {
    pub count: u32,
    pub nodes: [u32; 4],
    pub right: u32,
    pub left: u32,
    pub ztype: u32,
}

#[derive(Clone, Copy)]
pub struct Cell {
    pub element: u32,
    pub ztype: u32,
}

// One regular section, as the reader's list has it. For nodes the element is 0.
#[derive(Clone, Copy)]
pub struct Zone {
    pub section: u32,
    pub zone: u32,
    pub first: u32,
    pub last: u32,
    pub ztype: u32,
    pub element: u32,
}
