// `last_of`, where the sections are kept in three lists: the way that a file is judged.
ghost use Rattle.std.specs.Prelude.{◌≡◌};
ghost use Rattle.layout.specs.Read.{end_of};
ghost use Rattle.kept.specs.Kept.{listed};
ghost use Rattle.sofar.specs.States.{state_by_lists};
ghost use Rattle.endings.specs.Endings.{verdict, last_of};

use super::{last_of, refused};
use kept::{Kept, Lists, is_tiled_by_lists};
use layout::{Accepted, Refusal, Refused};
use sofar::{Seen, State};
use tokens::Token;

// "At the end: 13, 10, 14."
#[tactic(auto, unfolding(layout::specs::Read::end_of))]
fn end_of(x: State, lists: Lists<'_>, k: u32, size: usize) -> Result<Accepted, Refused>
    ensures { result ≡ verdict (end_of size (state_by_lists (listed lists.entry) x) k) }
{
    if !(x.nodes.declared && x.faces.declared) {
        return refused(Refusal::Missing, k, size);
    }
    if x.dim == 0 {
        return refused(Refusal::Dimension, k, size);
    }
    let z = x.zones as usize;
    let tiled = is_tiled_by_lists(lists, z, 10, x.nodes.total)
        && is_tiled_by_lists(lists, z, 12, x.cells.total)
        && is_tiled_by_lists(lists, z, 13, x.faces.total);
    if !tiled {
        return refused(Refusal::Untiled, k, size);
    }
    Ok(Accepted {
        dim: x.dim,
        nodes: x.nodes.total,
        faces: x.faces.total,
        cells: x.cells.total,
        zones: x.zones,
    })
}

// A token that opens no section: the end, or what stands in no file.
pub fn last_by_lists(
    kind: Token,
    start: usize,
    x: State,
    lists: Lists<'_>,
    k: u32,
    size: usize,
) -> Result<Accepted, Refused>
    ensures { result ≡ last_of kind start (state_by_lists (listed lists.entry) x) k size }
{
    match kind {
        Token::End => end_of(x, lists, k, size),
        _ => refused(Refusal::Grammar, k, start),
    }
}

#[test]
fn end_by_one_slice_and_by_three_lists(rt: HostRuntime) {
    let three = Seen {
        declared: true,
        total: 3,
    };
    let none = Seen {
        declared: true,
        total: 0,
    };
    let mut x = State {
        dim: 2,
        nodes: three,
        cells: none,
        faces: none,
        zones: 1,
    };
    let good = Ok(Accepted {
        dim: 2,
        nodes: 3,
        faces: 0,
        cells: 0,
        zones: 1,
    });
    let nodes = [Kept {
        id: 10,
        first: 1,
        last: 3,
    }];
    let lists = Lists {
        ids: &[10],
        firsts: &[1],
        lasts: &[3],
    };
    assert!(rt; last_of(Token::End, 9, x, &nodes, 4, 9) == good);
    assert!(rt; last_by_lists(Token::End, 9, x, lists, 4, 9) == good);
    x.zones = 0;
    let untiled = refused(Refusal::Untiled, 4, 9);
    assert!(rt; last_of(Token::End, 9, x, &nodes, 4, 9) == untiled);
    assert!(rt; last_by_lists(Token::End, 9, x, lists, 4, 9) == untiled);
    let word = refused(Refusal::Grammar, 4, 7);
    assert!(rt; last_of(Token::Word, 7, x, &nodes, 4, 9) == word);
    assert!(rt; last_by_lists(Token::Word, 7, x, lists, 4, 9) == word);
}
