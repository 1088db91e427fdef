// What is printed of a case.
ghost use Rattle.std.specs.Prelude.{◌<◌};

use layout::{Accepted, Refused};
use std::fmt::Display;
use std::io;
use std::io::Write;

const ZONE_WORDS: usize = 6;

// A row is a line, its name before its words.
fn print_row(out: &mut impl Write, name: &[u8], row: &[impl Display]) -> io::Result<()> {
    out.write_all(name)?;
    for word in row {
        write!(out, " {word}")?;
    }
    writeln!(out)
}

// The last row is short where the words end within it.
pub(crate) fn print_rows(
    out: &mut impl Write,
    name: &[u8],
    words: &[impl Display],
    width: usize,
) -> io::Result<()>
    requires { 0 < width }
{
    for row in words.chunks(width) {
        print_row(out, name, row)?;
    }
    Ok(())
}

// Is any word of a zone record's row not 0?
fn holds(row: &[u32]) -> bool {
    row.iter().any(|word| *word != 0)
}

// A record, and a row that is none and should be all 0.
fn print_zone(out: &mut impl Write, row: &[u32], is_record: bool) -> io::Result<()> {
    if is_record {
        return print_rows(out, b"z", row, ZONE_WORDS);
    }
    if holds(row) {
        print_rows(out, b"stray", row, ZONE_WORDS)?;
    }
    Ok(())
}

pub(crate) fn print_zones(out: &mut impl Write, flat: &[u32], zones: usize) -> io::Result<()> {
    for (i, row) in flat.chunks_exact(ZONE_WORDS).enumerate() {
        print_zone(out, row, i < zones)?;
    }
    Ok(())
}

pub(crate) fn print_reply(
    out: &mut impl Write,
    reply: Result<Accepted, Refused>,
) -> io::Result<()> {
    match reply {
        Ok(mesh) => {
            write!(out, "0 0 0 {} {} ", mesh.dim, mesh.nodes)?;
            writeln!(out, "{} {} {}", mesh.faces, mesh.cells, mesh.zones)
        }
        Err(refused) => {
            let number = numbering::number_of(refused.why);
            writeln!(
                out,
                "{number} {} {} 0 0 0 0 0",
                refused.section, refused.offset
            )
        }
    }
}
