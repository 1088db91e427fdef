// The part of a file that a coordinate word may take.
ghost use Rattle.std.specs.Prelude.{◌≡◌, ◌+◌, ◌-◌, ◌≤◌, min};

// The end of a window of at most so many bytes.
pub(crate) fn window_end(size: usize, start: usize, most: usize) -> usize
    requires { start ≤ size }
    ensures { result ≡ start + min most (size - start) }
{
    let rest = size - start;
    if rest < most { size } else { start + most }
}
