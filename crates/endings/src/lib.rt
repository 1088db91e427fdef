// What reading a file answers where no section opens: at its end, or at what stands in no file.
#![tactic(auto)]

ghost use Rattle.std.specs.Prelude.{◌≡◌};
ghost use Rattle.layout.specs.Read.{end_of};
ghost use Rattle.layout.specs.Replies.{refuses};
ghost use Rattle.sofar.specs.States.{state_for};
ghost use Rattle.endings.specs.Endings.{verdict, last_of};

mod by_lists;

pub use by_lists::last_by_lists;
use kept::{Kept, is_tiled};
use layout::{Accepted, Refusal, Refused};
use sofar::State;
use tokens::Token;

pub(crate) fn refused(why: Refusal, section: u32, offset: usize) -> Result<Accepted, Refused>
    ensures { result ≡ refuses why section offset }
{
    Err(Refused {
        why,
        section,
        offset,
    })
}

// "At the end: 13, 10, 14."
#[tactic(auto, unfolding(layout::specs::Read::end_of))]
fn end_of(x: State, kept: &[Kept], k: u32, size: usize) -> Result<Accepted, Refused>
    ensures { result ≡ verdict (end_of size (state_for kept.now x) k) }
{
    if !(x.nodes.declared && x.faces.declared) {
        return refused(Refusal::Missing, k, size);
    }
    if x.dim == 0 {
        return refused(Refusal::Dimension, k, size);
    }
    let z = x.zones as usize;
    let tiled = is_tiled(kept, z, 10, x.nodes.total)
        && is_tiled(kept, z, 12, x.cells.total)
        && is_tiled(kept, z, 13, x.faces.total);
    if !tiled {
        return refused(Refusal::Untiled, k, size);
    }
    Ok(Accepted {
        dim: x.dim,
        nodes: x.nodes.total,
        faces: x.faces.total,
        cells: x.cells.total,
        zones: x.zones,
    })
}

// A token that opens no section: the end, or what stands in no file.
pub fn last_of(
    kind: Token,
    start: usize,
    x: State,
    kept: &[Kept],
    k: u32,
    size: usize,
) -> Result<Accepted, Refused>
    ensures { result ≡ last_of kind start (state_for kept.now x) k size }
{
    match kind {
        Token::End => end_of(x, kept, k, size),
        _ => refused(Refusal::Grammar, k, start),
    }
}
