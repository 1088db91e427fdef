// Prints the tokens of each file that its arguments name, or of standard input where there is none,
// a line for each, and behind a word what it is as a number of each sort.
#![tactic(auto)]

ghost use Rattle.std.specs.Prelude.{length, IfOk};
ghost use Rattle.wordlist.specs.Turn.{Ahead};

use decimals::Decimal;
use std::alloc::Global;
use std::fs::File;
use std::io::{BufWriter, Read, Write};
use std::rt::Files;
use std::{env, io};
use tokens::{Cursor, Token};

// Input over this many bytes is not listed.
const MOST: usize = 65536;

fn put_whole(out: &mut impl Write, k: Option<u32>) -> io::Result<()> {
    match k {
        Some(v) => write!(out, "{v}"),
        None => write!(out, "-"),
    }
}

fn put_decimal(out: &mut impl Write, d: Option<Decimal>) -> io::Result<()> {
    match d {
        Some(d) => write!(out, "{} {}", d.mantissa, d.exponent),
        None => write!(out, "-"),
    }
}

// The word's own bytes, which may be no text, and its numbers.
fn put_word(out: &mut impl Write, w: &[u8]) -> io::Result<()> {
    write!(out, "word ")?;
    out.write_all(w)?;
    write!(out, " id ")?;
    put_whole(out, numbers::section_id(w))?;
    write!(out, " hex ")?;
    put_whole(out, numbers::hexadecimal(w))?;
    write!(out, " coordinate ")?;
    put_decimal(out, coordinates::coordinate(w))?;
    writeln!(out)
}

// The line of the first token at or behind the cursor. Answers where more may stand, if it may.
fn put_token(out: &mut impl Write, s: &[u8], c: Cursor) -> io::Result<Option<Cursor>>
    ensures { IfOk result (λ turn. Ahead c.at (length s.now) turn) }
{
    let t = c.token(s);
    let start = t.start;
    let next = t.next;
    write!(out, "{start} ")?;
    match t.token {
        Token::Left => writeln!(out, "(")?,
        Token::Right => writeln!(out, ")")?,
        Token::Text => writeln!(out, "string")?,
        Token::Word => put_word(out, &s[start..next.at])?,
        Token::Unclosed => {
            writeln!(out, "unclosed")?;
            return Ok(None);
        }
        Token::End => {
            writeln!(out, "end")?;
            return Ok(None);
        }
    }
    Ok(Some(next))
}

fn put_tokens(out: &mut impl Write, s: &[u8]) -> io::Result<()> {
    let mut c = Cursor::new();
    while let Some(next) = put_token(out, s, c)? {
        c = next;
    }
    Ok(())
}

// Is there more behind the bytes that were read?
fn is_over(input: &mut impl Read) -> io::Result<bool> {
    let next = input.bytes().next().transpose()?;
    Ok(next.is_some())
}

fn put_input(alloc: Global, out: &mut impl Write, input: &mut impl Read) -> io::Result<()> {
    let mut text = Vec::with_capacity(alloc, MOST)?;
    input.by_ref().take(MOST as u64).read_to_end(&mut text)?;
    if is_over(input)? {
        return out.write_all(b"input over 65536\n");
    }
    put_tokens(out, &text)
}

// A file that can't be opened is named on standard error, and the next one is listed.
fn put_file(
    rt: &(impl Files + Eprint + AllocGlobal),
    out: &mut impl Write,
    name: &str,
) -> io::Result<()> {
    writeln!(out, "file {name}")?;
    match File::open(rt, name) {
        Ok(mut file) => put_input(rt.alloc(), out, &mut file),
        Err(e) => {
            out.flush()?;
            eprintln!(rt; "{name}: {e}")
        }
    }
}

fn main(rt: HostRuntime) -> io::Result<()> {
    let mut out = BufWriter::new(rt.alloc(), io::writer(&rt))?;
    let args = env::args(&rt)?;
    if args.len() < 2 {
        put_input(rt.alloc(), &mut out, &mut rt.reader())?;
    }
    for name in args.skip(1) {
        put_file(&rt, &mut out, name.as_str())?;
    }
    out.flush()
}
