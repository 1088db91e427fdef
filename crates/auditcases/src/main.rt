// Runs the audit on the cases of standard input, and prints each answer, the counts and the list.
// A case is words in hexadecimal: dimension, N, F, C, how many face words, cell words, counts and list
// bytes are lent, then the face words and the cell words. What is no such word is stepped over.
#![tactic(auto)]

mod shown;

use casewords::numbers_of;
use shown::{print_all, print_audited};
use std::io;
use std::io::{BufWriter, Read, Write};

// Input is read up to here.
const MOST: u64 = 65536;

// Words are taken up to here.
const WORDS: usize = 16384;

// Words before a case's rows.
const HEAD: usize = 8;

// What a case may be lent.
const COUNTS: usize = 32;

const LIST: usize = 256;

// Runs the case that the words begin with, and answers the words behind it; none, where it is not whole. Counts begin as 9, list bytes as 7.
fn one_case<'a>(out: &mut impl Write, words: &'a [u32]) -> io::Result<Option<&'a [u32]>> {
    let Some((head, rest)) = words.split_first_chunk::<HEAD>() else {
        return Ok(None);
    };
    let [
        dim,
        nodes,
        faces,
        cells,
        face_words,
        cell_words,
        room,
        bytes,
    ] = *head;
    let Some((face_rows, rest)) = rest.split_at_checked(face_words as usize) else {
        return Ok(None);
    };
    let Some((cell_rows, rest)) = rest.split_at_checked(cell_words as usize) else {
        return Ok(None);
    };
    let mut counts: [u32; COUNTS] = [9; COUNTS];
    let mut list: [u8; LIST] = [7; LIST];
    let Some(counts) = counts.get_mut(..room as usize) else {
        return Ok(None);
    };
    let Some(list) = list.get_mut(..bytes as usize) else {
        return Ok(None);
    };
    let audited = audit::audit(dim, nodes, faces, cells, face_rows, cell_rows, counts, list);
    print_audited(out, audited)?;
    print_all(out, counts)?;
    print_all(out, list)?;
    writeln!(out)?;
    Ok(Some(rest))
}

fn run(out: &mut impl Write, words: &[u32]) -> io::Result<()> {
    let mut rest = words;
    for _ in 0..words.len() {
        let Some(behind) = one_case(out, rest)? else {
            return Ok(());
        };
        rest = behind;
    }
    Ok(())
}

// As many cells as there may be, and one more: each is a triangle with no side.
fn largest(out: &mut impl Write) -> io::Result<()> {
    let none: [u32; 0] = [];
    let rows: [u32; 131072] = [1; 131072];
    let mut counts: [u32; 65536] = [9; 65536];
    let mut list: [u8; 14] = [7; 14];
    print_audited(
        out,
        audit::audit(2, 65535, 0, 65535, &none, &rows, &mut counts, &mut list),
    )?;
    print_all(out, &list)?;
    writeln!(out)?;
    print_audited(
        out,
        audit::audit(2, 65535, 0, 65536, &none, &rows, &mut counts, &mut list),
    )?;
    print_all(out, &list)?;
    writeln!(out)
}

fn main(rt: HostRuntime) -> io::Result<()> {
    let mut out = BufWriter::new(rt.alloc(), io::writer(&rt))?;
    let mut text = Vec::new(rt.alloc());
    rt.reader().take(MOST).read_to_end(&mut text)?;
    let mut words: [u32; WORDS] = [0; WORDS];
    let count = numbers_of(&text, &mut words);
    run(&mut out, &words[..count])?;
    largest(&mut out)?;
    out.flush()
}
