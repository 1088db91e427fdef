// Where a section's rows begin, and where its record goes.
ghost use Rattle.std.specs.Prelude.{◌*◌, ◌-◌, ◌≡◌};
ghost use Rattle.std.proofs.lemmas.List.Edits.{sets};
ghost use Rattle.tables.specs.Places.{words_of};

use mesh::Zone;
use stores::store;

// The rows before the index `first`; indices begin at 1.
pub fn rows_before(first: u32) -> usize
    ensures { result ≡ first - 1 }
{
    first.saturating_sub(1) as usize
}

// A record behind the z that are in the list, six words each. Behind the end nothing is stored; the test keeps the place from wrapping.
pub fn put_record(list: &mut [u32], z: usize, zone: Zone)
    ensures { list.new ≡ sets list.old (6 * z) (words_of zone) }
{
    if list.len() < z {
        return;
    }
    let words = [
        zone.section,
        zone.zone,
        zone.first,
        zone.last,
        zone.ztype,
        zone.element,
    ];
    for (i, word) in words.iter().enumerate() {
        store(list, 6 * z + i, *word);
    }
}
