// What is printed of a case: number, total and bytes, then counts and list behind bars.
use audit::{Audited, Refusal};
use std::fmt::Display;
use std::io;
use std::io::Write;

// Counts or list bytes, behind a bar.
pub(crate) fn print_all<T: Display>(out: &mut impl Write, items: &[T]) -> io::Result<()> {
    write!(out, " |")?;
    for item in items {
        write!(out, " {item}")?;
    }
    Ok(())
}

pub(crate) fn print_audited(
    out: &mut impl Write,
    audited: Result<Audited, Refusal>,
) -> io::Result<()> {
    match audited {
        Ok(done) => write!(out, "0 {} {}", done.total, done.bytes),
        Err(refusal) => write!(out, "{} 0 0", u32::from(refusal)),
    }
}
