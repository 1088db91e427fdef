// Fault records as bytes, laid one behind the other in a lent list.
#![tactic(auto)]

ghost use Rattle.std.specs.Prelude.{◌≡◌, ◌++◌, ◌+◌, ◌-◌, ◌≤◌, length, drop};
ghost use Rattle.facts.specs.Bytes.{big_endian};
ghost use Rattle.records.specs.Record.{narrow, has_place, extra_bytes, size_of, record_of};
ghost use Rattle.records.specs.Laid.{Laid, laid, step};

// The kind is a number, since a list's bytes are read as records too, and there it may be any byte.
// The extra is a position, a side or a count, and 0 where the kind has none.
#[derive(Clone, Copy)]
pub struct Fault {
    pub kind: u32,
    pub index: u32,
    pub extra: u32,
}

// The place behind the last record, and whether no record was left out so far. The place is answered in both cases.
#[derive(Clone, Copy)]
pub struct Pen {
    pub at: usize,
    pub live: bool,
}

// The kind whose extra is a count.
pub const COUNTED: u32 = 9;

const INDEX_BYTES: usize = 2;

const COUNT_BYTES: usize = 3;

// Where the extra starts in a record.
const EXTRA_AT: usize = 1 + INDEX_BYTES;

fn has_place(kind: u32) -> bool
    ensures { result ≡ has_place kind }
{
    matches!(kind, 2..=4)
}

pub fn extra_bytes(kind: u32) -> usize
    ensures { result ≡ extra_bytes narrow kind }
{
    if has_place(kind) {
        1
    } else if kind == COUNTED {
        COUNT_BYTES
    } else {
        0
    }
}

// Fills the start of the list with n bytes of x, the highest first.
fn lay_number(list: &mut [u8], n: usize, x: u32)
    requires { n ≤ length list.old }
    ensures { list.new ≡ big_endian n x ++ drop n list.old }
{
    let mut v = x;
    for i in (0..n).rev() {
        list[i] = (v % 256) as u8;
        v /= 256;
    }
}

// Fills the start of the list with the extra. Each size stands as a constant, so that the compiler leaves no loop.
fn lay_extra(list: &mut [u8], kind: u32, x: u32)
    requires { extra_bytes narrow kind ≤ length list.old }
    ensures { list.new ≡ big_endian (extra_bytes narrow kind) x ++ drop (extra_bytes narrow kind) list.old }
{
    if has_place(kind) {
        lay_number(list, 1, x);
    } else if kind == COUNTED {
        lay_number(list, COUNT_BYTES, x);
    }
}

// The record writer: fills the start of what it is lent.
fn lay_record(list: &mut [u8], f: Fault)
    requires { size_of narrow f.kind ≤ length list.old }
    ensures { list.new ≡ record_of narrow f ++ drop (size_of narrow f.kind) list.old }
{
    lay_number(list, 1, f.kind);
    lay_number(&mut list[1..], INDEX_BYTES, f.index);
    lay_extra(&mut list[EXTRA_AT..], f.kind, f.extra);
}

// Lays one more record in the rest of the list, if it fits and none was left out before.
pub fn put(list: &mut [u8], pen: Pen, f: Fault) -> Pen
    ensures { ◌≡◌ {A = Laid} (laid list.new result) (step narrow (laid list.old pen) f) }
{
    let at = pen.at;
    let size = EXTRA_AT + extra_bytes(f.kind);
    let room = list.len().saturating_sub(at);
    let fits = size <= room;
    if pen.live && fits {
        lay_record(&mut list[at..], f);
        let next = at + size;
        return Pen {
            at: next,
            live: true,
        };
    }
    Pen { at, live: false }
}
