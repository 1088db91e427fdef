// What is kept of a section that was met: the state, and of a regular one its range and its place.
ghost use Rattle.std.specs.Prelude.{◌≡◌};
ghost use Rattle.notes.specs.Noting.{more, with_total, dim_with, note_state, note_id, note_first, note_last, note_place};

use dims::{dim_after, dim_word};
use sofar::{Seen, State, id_of};
use spots::{Head, Kind};
use stores::store;

// What a section says, its body aside.
#[derive(Clone, Copy)]
pub enum Met {
    Dim(u32),
    Decl { kind: Kind, head: Head },
    Part { kind: Kind, head: Head },
    Other,
}

fn more_of(z: u32) -> u32
    ensures { result ≡ more z }
{
    if (z as usize) < sizes::ZONES {
        z + 1
    } else {
        z
    }
}

fn with_total(x: State, kind: Kind, total: u32, dim: u32) -> State
    ensures { result ≡ with_total x kind total dim }
{
    let seen = Seen {
        declared: true,
        total,
    };
    match kind {
        Kind::Node => State {
            dim,
            nodes: seen,
            ..x
        },
        Kind::Cell => State {
            dim,
            cells: seen,
            ..x
        },
        Kind::Face => State {
            dim,
            faces: seen,
            ..x
        },
    }
}

fn dim_with(x: State, kind: Kind, h: Head) -> u32
    ensures { result ≡ dim_with x kind h }
{
    dim_after(x.dim, dim_word(kind, h.word()))
}

pub fn noted(x: State, met: Met) -> State
    ensures { result ≡ note_state x met }
{
    match met {
        Met::Dim(dim) => State { dim, ..x },
        Met::Decl { kind, head } => with_total(x, kind, head.last.value, dim_with(x, kind, head)),
        Met::Part { kind, head } => State {
            dim: dim_with(x, kind, head),
            zones: more_of(x.zones),
            ..x
        },
        Met::Other => x,
    }
}

// A regular section goes behind the z that are kept, in each of the four slices that has room for it.
pub fn keep(
    ids: &mut [u32],
    firsts: &mut [u32],
    lasts: &mut [u32],
    places: &mut [u32],
    z: u32,
    met: Met,
    place: u32,
)
    ensures ids { ids.new ≡ note_id met z ids.old }
    ensures firsts { firsts.new ≡ note_first met z firsts.old }
    ensures lasts { lasts.new ≡ note_last met z lasts.old }
    ensures places { places.new ≡ note_place met z place places.old }
{
    if let Met::Part { kind, head } = met {
        let z = z as usize;
        store(ids, z, id_of(kind));
        store(firsts, z, head.first.value);
        store(lasts, z, head.last.value);
        store(places, z, place);
    }
}
