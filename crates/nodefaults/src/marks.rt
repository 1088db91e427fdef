// The faults of a face's nodes as one number: a bit a position, four bits a kind. They are made only where there is such a fault.
ghost use Rattle.std.specs.Prelude.{◌≡◌, ◌&&◌, ◌+◌, ◌*◌, ◌<◌, ◌≤◌, ltb, take, get_or};
ghost use Rattle.mesh.specs.Rows.{places};
ghost use Rattle.faults.specs.Over.{packed};
ghost use Rattle.faults.specs.Faults.{wrong_node, is_in};
ghost use Rattle.faults.specs.Sides.{one};
ghost use Rattle.faults.specs.Marked.{four, node_part};

use super::faces::{looked_at, wrong_count, wrong_node};
use super::sound::any_node_fault;
use faults::{Frame, bit_if};
use mesh::Face;

// With fewer nodes looked at, the third and the fourth are not read.
const SOLID_LEAST: u32 = 3;

// Four tests as bits. There is no loop over the places: in flat meshes, where two are looked at, it takes longer.
#[tactic(auto, using(faults::proofs::Sides::one_most))]
fn bits(a: bool, b: bool, c: bool, d: bool) -> u32
    ensures { result ≡ four a b c d }
{
    let first = bit_if(a, 1);
    let second = bit_if(b, 2);
    let third = bit_if(c, 4);
    let fourth = bit_if(d, 8);
    first + second + third + fourth
}

// A position is looked at where it is below `looked`.
fn at_looked(p: u32, looked: u32, test: bool) -> bool
    ensures { result ≡ (ltb p looked && test) }
{
    p < looked && test
}

fn looked_bits(looked: u32, a: bool, b: bool, c: bool, d: bool) -> u32
    ensures { result ≡ four (ltb 0 looked && a) (ltb 1 looked && b) (ltb 2 looked && c) (ltb 3 looked && d) }
{
    let at_a = at_looked(0, looked, a);
    let at_b = at_looked(1, looked, b);
    let at_c = at_looked(2, looked, c);
    let at_d = at_looked(3, looked, d);
    bits(at_a, at_b, at_c, at_d)
}

fn node_marks(nodes: u32, looked: u32, row: [u32; 4]) -> u32
    requires { looked ≤ places }
    ensures { result ≡ packed 2 (λ p. one (wrong_node nodes (get_or row p 0))) 0 looked }
{
    let a = wrong_node(nodes, row[0]);
    let b = wrong_node(nodes, row[1]);
    if looked < SOLID_LEAST {
        return looked_bits(looked, a, b, false, false);
    }
    let c = wrong_node(nodes, row[2]);
    let d = wrong_node(nodes, row[3]);
    looked_bits(looked, a, b, c, d)
}

fn again_marks(looked: u32, row: [u32; 4]) -> u32
    requires { looked ≤ places }
    ensures { result ≡ packed 2 (λ p. one (is_in (get_or row p 0) (take p row))) 0 looked }
{
    let a = row[0];
    let b = row[1];
    if looked < SOLID_LEAST {
        return looked_bits(looked, false, a == b, false, false);
    }
    let c = row[2];
    let d = row[3];
    looked_bits(
        looked,
        false,
        a == b,
        [a, b].contains(&c),
        [a, b, c].contains(&d),
    )
}

// Three kinds as one number, the first the lowest.
fn join(first: u32, second: u32, third: u32) -> u32
    requires { (first < 16) × (second < 16) × (third < 16) }
    ensures { result ≡ first + 16 * (second + 16 * third) }
{
    let from_second = second + 16 * third;
    first + 16 * from_second
}

pub fn node_part(frame: Frame, face: Face) -> u32
    ensures { result ≡ node_part places frame face }
{
    let faulty = any_node_fault(frame, face);
    if faulty {
        let row = face.nodes;
        let looked = looked_at(face.count);
        let first = bit_if(wrong_count(frame.dim, face.count), 1);
        let second = node_marks(frame.nodes, looked, row);
        let third = again_marks(looked, row);
        return join(first, second, third);
    }
    0
}
