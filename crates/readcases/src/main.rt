// Runs the reader on the cases of standard input, and prints each answer and everything that was lent.
//
// A case is a line `%% "NAME" M E F C Z` and a mesh. M, E, F and C, in hexadecimal, are the words of mantissas, exponents,
// face rows and cell rows that are lent, Z is the number of zone records that there is room for. The mesh is all bytes
// behind that line up to the line feed before the next line that begins with %%. A line of %% alone ends the last case.
//
// Printed are the case's line; number, section, offset, dimension, nodes, faces, cells, zones; then a line for each row
// of mantissas (m), exponents (e), faces (f), cells (c) and for each zone record (z). Before a case all of them are 7,
// exponents -7, so that a row that stayed is seen. A row is short where a slice ends within it.
#![tactic(auto)]

mod cases;
mod rooms;
mod shown;

ghost use Rattle.std.specs.Prelude.{◌<◌, ◌≤◌, IfOk, length};

use cases::{line_end, text_end};
use casewords::numbers_of;
use rooms::lent;
use shown::{print_reply, print_rows, print_zones};
use std::io;
use std::io::{BufWriter, Read, Write};

// Input is read up to here.
const MOST: u64 = 65536;

// How many numbers a case's line has.
const NUMBERS: usize = 5;

// What a case may be lent: 24 rows of each kind.
const NODE_WORDS: usize = 72;

const FACE_WORDS: usize = 192;

const CELL_WORDS: usize = 48;

// Zone records are numbers here, so there may be room for any number of them.
const ZONES: usize = 65535;

fn judge(
    out: &mut impl Write,
    text: &[u8],
    mantissas: &mut [i64],
    exponents: &mut [i32],
    faces: &mut [u32],
    cells: &mut [u32],
    room: usize,
) -> io::Result<()> {
    let found = filling::read_flat(text, mantissas, exponents, faces, cells, room);
    print_reply(out, found.reply)?;
    print_rows(out, b"m", mantissas, 3)?;
    print_rows(out, b"e", exponents, 3)?;
    print_rows(out, b"f", faces, 8)?;
    print_rows(out, b"c", cells, 2)?;
    print_zones(out, &found.flat, found.zones)
}

// Lends what the case's line says. `%%` is no number and the name is no word.
fn lend(out: &mut impl Write, line: &[u8], text: &[u8]) -> io::Result<()> {
    let mut numbers: [u32; NUMBERS] = [0; NUMBERS];
    numbers_of(line, &mut numbers);
    let m = lent(&numbers, 0, NODE_WORDS);
    let e = lent(&numbers, 1, NODE_WORDS);
    let f = lent(&numbers, 2, FACE_WORDS);
    let c = lent(&numbers, 3, CELL_WORDS);
    let room = lent(&numbers, 4, ZONES);
    let mut mantissas: [i64; NODE_WORDS] = [7; NODE_WORDS];
    let mut exponents: [i32; NODE_WORDS] = [-7; NODE_WORDS];
    let mut faces: [u32; FACE_WORDS] = [7; FACE_WORDS];
    let mut cells: [u32; CELL_WORDS] = [7; CELL_WORDS];
    judge(
        out,
        text,
        &mut mantissas[..m],
        &mut exponents[..e],
        &mut faces[..f],
        &mut cells[..c],
        room,
    )
}

// The case whose line begins at `at`, if a line of %% stands behind it. Answers where the next case begins.
fn one_case(out: &mut impl Write, s: &[u8], at: usize) -> io::Result<usize>
    requires { at < length s.now }
    ensures { IfOk result (λ next. at < next) }
{
    let size = s.len();
    let line = line_end(s, at);
    if size <= line {
        return Ok(size);
    }
    let start = line + 1;
    let end = text_end(s, start);
    if size <= end {
        return Ok(size);
    }
    out.write_all(&s[at..start])?;
    lend(out, &s[at..line], &s[start..end])?;
    Ok(end + 1)
}

// No `for`: how long a case is, is known when it is read.
fn run(out: &mut impl Write, s: &[u8]) -> io::Result<()> {
    let mut at: usize = 0;
    while at < s.len() {
        at = one_case(out, s, at)?;
    }
    Ok(())
}

fn main(rt: HostRuntime) -> io::Result<()> {
    let mut out = BufWriter::new(rt.alloc(), io::writer(&rt))?;
    let mut text = Vec::new(rt.alloc());
    rt.reader().take(MOST).read_to_end(&mut text)?;
    run(&mut out, &text)?;
    out.flush()
}
