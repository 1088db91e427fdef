// What the readers of a section hand on to each other: words, headers and refusals, each with the place where it stands.
#![tactic(auto)]

ghost use Rattle.std.specs.Prelude.{◌≡◌};

use layout::Refusal;

// Why and where a file is refused.
#[derive(Clone, Copy, Debug, PartialEq, Eq)]
pub struct Bad {
    pub why: Refusal,
    pub offset: usize,
}

// The sections that are read by the same rules.
#[derive(Clone, Copy, Debug, PartialEq, Eq)]
pub enum Kind {
    Node,
    Cell,
    Face,
}

// A number and where its word starts.
#[derive(Clone, Copy)]
pub struct Read {
    pub value: u32,
    pub at: usize,
}

// The words of a header with their places, and the place of the `)`. The fifth word's place stands apart from the word: it is told where none is given, too.
#[derive(Clone, Copy)]
pub struct Head {
    pub zone: Read,
    pub first: Read,
    pub last: Read,
    pub ztype: Read,
    pub fifth: Option<u32>,
    pub place: usize,
    pub end: usize,
}

impl Head {
    // The fifth word, if one is given.
    pub fn word(self) -> Option<u32>
        ensures { result ≡ self.fifth }
    {
        let Head { fifth, .. } = self;
        fifth
    }

    // Where the fifth word stands; readers of headers put 0 where none is given.
    pub fn place(self) -> usize
        ensures { result ≡ self.place }
    {
        let Head { place, .. } = self;
        place
    }
}
