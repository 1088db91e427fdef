// The paper's number of a refusal. A crate of its own: a match of fourteen arms is dear to prove.
#![tactic(auto)]

ghost use Rattle.std.specs.Prelude.{◌≡◌};
ghost use Rattle.layout.specs.Replies.{number_of};

use layout::Refusal;

pub fn number_of(why: Refusal) -> u32
    ensures { result ≡ number_of why }
{
    match why {
        Refusal::TooLong => 1,
        Refusal::Grammar => 2,
        Refusal::Number => 3,
        Refusal::Binary => 4,
        Refusal::Undeclared => 5,
        Refusal::Range => 6,
        Refusal::TableRoom => 7,
        Refusal::Overlap => 8,
        Refusal::Type => 9,
        Refusal::Dimension => 10,
        Refusal::ZoneRoom => 11,
        Refusal::Depth => 12,
        Refusal::Missing => 13,
        Refusal::Untiled => 14,
    }
}
