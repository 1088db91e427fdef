// The limits of document 01, "Sizes". No other crate states one.
#![tactic(auto)]

ghost use Rattle.std.specs.Prelude.{◌≡◌};
ghost use Rattle.sizes.specs.Sizes.{in_force};

pub const FILE_BYTES: usize = 8388608;

pub const ROWS: u32 = 65535;

pub const ZONE_ID: u32 = 65535;

pub const ZONES: usize = 64;

pub const DEPTH: u32 = 64;

pub const COORDINATE_BYTES: usize = 64;

pub const COORDINATE_DIGITS: u32 = 18;

#[derive(Clone, Copy)]
pub struct Limits {
    pub file: usize,
    pub rows: u32,
    pub zone: u32,
    pub zones: usize,
    pub depth: u32,
    pub word: usize,
    pub digits: u32,
}

// The limits that the code has are those of the definitions.
pub fn in_force() -> Limits
    ensures { result ≡ in_force }
{
    Limits {
        file: FILE_BYTES,
        rows: ROWS,
        zone: ZONE_ID,
        zones: ZONES,
        depth: DEPTH,
        word: COORDINATE_BYTES,
        digits: COORDINATE_DIGITS,
    }
}
