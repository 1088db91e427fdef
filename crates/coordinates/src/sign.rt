// A sign at a place of a word.
ghost use Rattle.std.specs.Prelude.{◌≡◌, ◌≤◌, length, drop};
ghost use Rattle.coordinates.specs.Parts.{starts, SignAt};

// A `Taken<bool>` would not say which of the two it is.
#[derive(Clone, Copy)]
pub(crate) struct Sign {
    pub negative: bool,
    pub next: usize,
}

// Does this byte stand at this place?
#[tactic(auto, using(crate::proofs::Places::starts_here, crate::proofs::Places::starts_past))]
pub(crate) fn stands_at(w: &[u8], at: usize, b: u8) -> bool
    ensures { result ≡ starts b (drop at w.now) }
{
    at < w.len() && w[at] == b
}

pub(crate) fn sign_at(w: &[u8], at: usize) -> Sign
    requires { at ≤ length w.now }
    ensures { SignAt w.now at result }
{
    if stands_at(w, at, b'-') {
        let next = at + 1;
        return Sign {
            negative: true,
            next,
        };
    }
    if stands_at(w, at, b'+') {
        let next = at + 1;
        return Sign {
            negative: false,
            next,
        };
    }
    Sign {
        negative: false,
        next: at,
    }
}
