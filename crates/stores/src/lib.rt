// Values of a table. Past the end nothing is stored.
#![tactic(auto)]

ghost use Rattle.std.specs.Prelude.{◌≡◌, set};
ghost use Rattle.std.proofs.lemmas.List.Edits.{sets};

pub fn store<T: Copy + Drop>(words: &mut [T], i: usize, v: T)
    ensures { words.new ≡ set words.old i v }
{
    if i < words.len() {
        words[i] = v;
    }
}

// The values of one slice to the start of another; those past its end are left out.
pub fn copy_into<T: Copy + Drop>(from: &[T], to: &mut [T])
    ensures { to.new ≡ sets to.old 0 from.now }
{
    let fits = from.len().min(to.len());
    to[..fits].copy_from_slice(&from[..fits]);
}
