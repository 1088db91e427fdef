// Prints the name of each file that its arguments name and the report on the mesh in it.
#![tactic(auto)]

use std::alloc::Global;
use std::fs::File;
use std::io::{BufWriter, Read, Write};
use std::rt::Files;
use std::{env, io};

// No report is made of a file over this many bytes.
const MOST: usize = 65536;

fn print_report(out: &mut impl Write, text: &[u8]) -> io::Result<()> {
    let mut report: [u8; 16384] = [0; 16384];
    let n = report::report(text, &mut report);
    if n <= report.len() {
        out.write_all(&report[..n])?;
    }
    Ok(())
}

// Whether the file goes on behind the bytes that were read.
fn goes_on(file: &mut impl Read) -> io::Result<bool> {
    let next = file.bytes().next().transpose()?;
    Ok(next.is_some())
}

fn print_mesh(alloc: Global, out: &mut impl Write, file: &mut impl Read) -> io::Result<()> {
    let mut text = Vec::with_capacity(alloc, MOST)?;
    file.by_ref().take(MOST as u64).read_to_end(&mut text)?;
    if goes_on(file)? {
        return out.write_all(b"input over 65536\n");
    }
    print_report(out, &text)
}

// A file that can't be opened is named on standard error, and the next one is read.
fn print_file(
    rt: &(impl Files + Eprint + AllocGlobal),
    out: &mut impl Write,
    name: &str,
) -> io::Result<()> {
    writeln!(out, "{name}")?;
    match File::open(rt, name) {
        Ok(mut file) => print_mesh(rt.alloc(), out, &mut file),
        Err(e) => {
            out.flush()?;
            eprintln!(rt; "{name}: {e}")
        }
    }
}

fn main(rt: HostRuntime) -> io::Result<()> {
    let mut out = BufWriter::new(rt.alloc(), io::writer(&rt))?;
    for name in env::args(&rt)?.skip(1) {
        print_file(&rt, &mut out, name.as_str())?;
    }
    out.flush()
}
