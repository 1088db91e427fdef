// Ranges of indices, and room for their rows and records.
#![tactic(auto)]

ghost use Rattle.std.specs.Prelude.{◌≡◌};
ghost use Rattle.layout.specs.State.{fits_in, decl_range, part_range, zone_fits};
ghost use Rattle.ranges.specs.Ranges.{limit_for};

// A limit is a number of whole rows or records; none is no limit.
pub fn fits_in(limit: Option<usize>, n: usize) -> bool
    ensures { result ≡ fits_in (limit_for limit) n }
{
    limit.is_none_or(|most| n <= most)
}

#[tactic(auto, unfolding(layout::specs::State::decl_range))]
pub fn decl_range(first: u32, last: u32) -> bool
    ensures { result ≡ decl_range first last }
{
    first == 1 && last <= sizes::ROWS
}

#[tactic(auto, unfolding(layout::specs::State::part_range))]
pub fn part_range(total: u32, zone: u32, first: u32, last: u32) -> bool
    ensures { result ≡ part_range total zone first last }
{
    zone <= sizes::ZONE_ID && 1 <= first && first <= last && last <= total
}

#[tactic(auto, unfolding(layout::specs::State::zone_fits))]
pub fn zone_fits(limit: Option<usize>, z: usize) -> bool
    ensures { result ≡ zone_fits (limit_for limit) z }
{
    z < sizes::ZONES && fits_in(limit, z + 1)
}
