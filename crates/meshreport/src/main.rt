// The report program: reads a mesh from standard input and prints what reading and auditing it answer.
#![tactic(auto)]

ghost use Rattle.std.specs.Prelude.{◌≤◌, length, IfOk, IfSome};

use std::io;
use std::io::Read;

// Reads until the buffer is full or the input ends, and answers how many bytes there are. The library's `read_to_end` wants a `Vec`, and this program allocates nothing.
fn read_full(input: &mut impl Read, text: &mut [u8]) -> io::Result<usize>
    ensures { IfOk result (λ n. n ≤ length text.new) }
{
    let mut n: usize = 0;
    while n < text.len() {
        let got = input.read(&mut text[n..])?;
        if got == 0 {
            return Ok(n);
        }
        n += got;
    }
    Ok(n)
}

// Whether the input goes on behind the buffer.
fn goes_on(input: &mut impl Read) -> io::Result<bool> {
    let mut more: [u8; 1] = [0; 1];
    let n = read_full(input, &mut more)?;
    Ok(0 < n)
}

fn print_report(rt: &impl Print, text: &[u8]) -> io::Result<()> {
    let mut report: [u8; 16384] = [0; 16384];
    let n = report::report(text, &mut report);
    if n <= report.len() {
        rt.write_all(&report[..n])?;
    }
    Ok(())
}

// How many bytes the buffer holds of the input, or nothing where the input is longer.
fn read_text(input: &mut impl Read, text: &mut [u8]) -> io::Result<Option<usize>>
    ensures { IfOk result (λ held. IfSome held (λ n. n ≤ length text.new)) }
{
    let n = read_full(input, text)?;
    if n < text.len() {
        return Ok(Some(n));
    }
    if goes_on(input)? {
        return Ok(None);
    }
    Ok(Some(n))
}

// Input that fails gets no report: what was read would else be taken for the whole.
fn main(rt: HostRuntime) -> io::Result<()> {
    let mut text: [u8; 65536] = [0; 65536];
    match read_text(&mut rt.reader(), &mut text) {
        Ok(Some(n)) => print_report(&rt, &text[..n]),
        Ok(None) => rt.write_all(b"input over 65536\n"),
        Err(_) => eprintln!(rt; "meshreport: standard input can't be read"),
    }
}
