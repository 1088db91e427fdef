// The listed records, a line each.
ghost use Rattle.std.specs.Prelude.{◌+◌, ◌^◌, ◌≤◌, ◌<◌, ◌≡◌, length, take, drop};
ghost use Rattle.facts.specs.Bytes.{from_big_endian};
ghost use Rattle.records.specs.Record.{narrow, extra_bytes, read_back};
ghost use Rattle.lines.specs.Writing.{Wrote};
ghost use Rattle.lines.specs.Listed.{record_line, record_lines, fault_lines};

use super::lines::{put_last, put_two};
use super::put::{put_decimal, put_text};
use records::Fault;

// The number that n bytes write from `at` on, the highest first; of bytes that are not there it knows nothing.
fn number_in(list: &[u8], at: usize, n: usize) -> u32
    requires { (n ≤ 3) × (at ≤ 2 ^ 63 + 8) }
    ensures { result ≡ from_big_endian (take n (drop at list.now)) }
{
    let mut v: u32 = 0;
    for i in 0..n {
        let j = at + i;
        if list.len() <= j {
            return v;
        }
        v = v * 256 + u32::from(list[j]);
    }
    v
}

// The record at p.
fn fault_in(list: &[u8], p: usize) -> Fault
    requires { p ≤ 2 ^ 63 }
    ensures { result ≡ read_back narrow (drop p list.now) }
{
    let kind = number_in(list, p, 1);
    let index_at = p + 1;
    let index = number_in(list, index_at, 2);
    let extra_at = p + 3;
    let bytes = records::extra_bytes(kind);
    let extra = number_in(list, extra_at, bytes);
    Fault { kind, index, extra }
}

fn put_fault(out: &mut [u8], at: usize, f: Fault) -> usize
    requires { at ≤ length out.old }
    ensures { Wrote out.old at (record_line f) out.new result }
{
    let kind = f.kind as usize;
    let index = f.index as usize;
    let extra = f.extra as usize;
    let c = put_decimal(out, at, kind);
    let bytes = records::extra_bytes(f.kind);
    if bytes == 0 {
        return put_last(out, c, index);
    }
    put_two(out, c, index, extra)
}

// A line for each record of the list. Records differ in size, so no `for` goes over them.
fn put_faults(out: &mut [u8], at: usize, list: &[u8]) -> usize
    requires { at ≤ length out.old }
    ensures { Wrote out.old at (record_lines (length list.now) list.now) out.new result }
{
    let mut c = at;
    let mut p: usize = 0;
    while p < list.len() {
        let f = fault_in(list, p);
        c = put_fault(out, c, f);
        let extra = records::extra_bytes(f.kind);
        p = p + 3 + extra;
    }
    c
}

// The total, and a line for each record.
pub fn put_total(out: &mut [u8], total: u32, list: &[u8]) -> usize
    ensures { Wrote out.old 0 (fault_lines total list.now) out.new result }
{
    let n = total as usize;
    let c = put_text(out, 0, b"faults");
    let d = put_last(out, c, n);
    put_faults(out, d, list)
}
