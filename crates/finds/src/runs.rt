// The end of a run of bytes, looked for in eight bytes at once.
ghost use Rattle.std.specs.Prelude.{◌≡◌, ◌+◌, ◌/◌, ◌^◌, ◌<◌};
ghost use Rattle.std.specs.Int.Count.{count_trailing_zeros};
ghost use Rattle.tokens.specs.declared.Run.{Run};
ghost use Rattle.finds.specs.Eights.{goes, Shows, Searched};

// The place in the file of the first byte that is marked among eight.
pub(crate) fn place(i: usize, here: u64) -> usize
    requires { i + 8 < 2 ^ 64 }
    ensures { result ≡ i + count_trailing_zeros 64 here / 8 }
{
    let zeros = u64::trailing_zeros(here);
    let step = zeros / 8;
    i + step as usize
}

// The first byte at or behind a place that does not go on with the run; or the place from which fewer than eight bytes are left to be looked at. `shown` gives the highest bit of each such byte among eight.
// By places and not by chunks, since it starts anywhere.
pub(crate) fn run_from<F: Fn(u64) -> u64>(s: &[u8], at: usize, shown: F) -> Result<usize, usize>
    requires { F.IsAlwaysCallable shown }
    ensures { (k : Run) → Shows (goes k) (F.post shown) → Searched k s.now at result }
{
    let size = s.len();
    let mut i = at;
    while i < size {
        let rest = size - i;
        if rest < 8 {
            return Err(i);
        }
        let x = digits::bytes_at(s, i);
        let here = shown(x);
        if here != 0 {
            return Ok(place(i, here));
        }
        i += 8;
    }
    Err(i)
}
