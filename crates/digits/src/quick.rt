// Hexadecimal digits at the start of some bytes: the usual number word, in one look at its bytes.
ghost use Rattle.std.specs.Prelude.{◌≡◌};
ghost use Rattle.digits.specs.Hexes.{hexes_of};

use super::group::{Base, group_of};
use super::lanes::bytes_at;

// Most digits of a hexadecimal number.
const MOST: usize = 8;

// The number that the digits write, and how many they are.
#[derive(Clone, Copy, Debug, PartialEq, Eq)]
pub struct Hexes {
    pub value: u32,
    pub count: usize,
}

// The digits of at most 8 bytes; of more none are read.
pub fn hexes_in(w: &[u8]) -> Hexes
    ensures { result ≡ hexes_of w.now }
{
    if MOST < w.len() {
        return Hexes { value: 0, count: 0 };
    }
    let x = bytes_at(w, 0);
    let g = group_of(x, Base::Sixteen);
    let value = g.value as u32;
    let count = g.count as usize;
    Hexes { value, count }
}
