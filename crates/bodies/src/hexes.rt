// Hexadecimal words in blocks of eight bytes, as far as these go.
ghost use Rattle.std.specs.Prelude.{◌≡◌};
ghost use Rattle.bodies.specs.Hexes.{goes_for, Gone};

use blocks::block_of;

// The place behind the words so far, and how many are left.
#[derive(Clone, Copy)]
pub struct Rest {
    pub next: usize,
    pub left: usize,
}

fn goes_for(left: usize, c: usize, size: usize) -> bool
    ensures { result ≡ goes_for left c size }
{
    8 <= left && 8 <= size && c <= size - 8
}

// As many of n words as can be read in blocks; the others are left.
// No `for`: the blocks end with the file or with the words that are left, whichever comes first.
pub(crate) fn blocks_past(s: &[u8], at: usize, n: usize) -> Rest
    ensures { Gone s.now at n result }
{
    let mut c = at;
    let mut tail: u32 = 0;
    let mut left = n;
    let size = s.len();
    while goes_for(left, c, size) {
        let x = digits::bytes_at(s, c);
        let Some(block) = block_of(x, tail) else {
            break;
        };
        left -= block.words as usize;
        tail = block.tail;
        c += 8;
    }
    let back = tail as usize;
    let next = c - back;
    Rest { next, left }
}
