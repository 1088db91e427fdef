// The header of a section in a file that is known to be good, as its zone record.
ghost use Rattle.std.specs.Prelude.{◌≡◌, length};
ghost use Rattle.tokens.specs.Listed.{tokens_from};
ghost use Rattle.layout.specs.Rows.{element_in, zone_of};
ghost use Rattle.layout.specs.Sections.{header_of, head_of};
ghost use Rattle.spots.specs.Heads.{kind_for, fifth_for, head_for};
ghost use Rattle.again.specs.Again.{Steps};

use facts::Taken;
use mesh::Zone;
use sofar::id_of;
use spots::{Head, Kind};

// For nodes 0.
fn element_in(kind: Kind, fifth: Option<u32>) -> u32
    ensures { result ≡ element_in (kind_for kind) (fifth_for fifth) }
{
    match kind {
        Kind::Node => 0,
        Kind::Cell | Kind::Face => fifth.unwrap_or(0),
    }
}

fn zone_of(kind: Kind, h: Head) -> Zone
    ensures { result ≡ zone_of (kind_for kind) (header_of (head_for h)) }
{
    Zone {
        section: id_of(kind),
        zone: h.zone.value,
        first: h.first.value,
        last: h.last.value,
        ztype: h.ztype.value,
        element: element_in(kind, h.word()),
    }
}

// A record with nothing in it.
const NO_ZONE: Zone = Zone {
    section: 0,
    zone: 0,
    first: 0,
    last: 0,
    ztype: 0,
    element: 0,
};

// The record of a section, and the place behind its header.
pub(crate) fn top_at(s: &[u8], at: usize, kind: Kind) -> Taken<Zone>
    ensures { Steps s.now result.next (head_of (length s.now) (kind_for kind) (tokens_from s.now at)) (λ h. result.value ≡ zone_of (kind_for kind) (header_of h)) }
{
    match heads::head_at(s, at, kind) {
        Ok(head) => Taken {
            value: zone_of(kind, head.value),
            next: head.next,
        },
        Err(_) => Taken {
            value: NO_ZONE,
            next: at,
        },
    }
}
