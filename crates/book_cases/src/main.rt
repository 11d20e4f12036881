// Reads clause books from standard input, each after its length (four bytes, little-endian), and
// prints a line for each: number and place of the reader's answer, then the constraint parts that
// are handed out, each as its length and a checksum of its bytes. For an accepted book these are
// the parts of all its clauses and of the absent one after the last, for a refused book that of
// clause 0, and for both that of a clause number far off. What must be printed is worked out by tests/book_cases.py.
#![tactic(auto)]

use std::io;
use std::io::{Read, Write};

// Twice this number is 0 if it wraps.
const FAR: usize = 9223372036854775808;

// The parts of the clauses 0 to last, that of a clause far off, and the end of the line.
fn print_parts<W: Write>(out: &mut W, book: &[u8], last: usize) -> io::Result<()> {
    for k in 0..=last {
        console::print_sum(out, book::constraint_of(book, k))?;
    }
    console::print_sum(out, book::constraint_of(book, FAR))?;
    writeln!(out)
}

fn print_line<W: Write>(out: &mut W, book: &[u8]) -> io::Result<()> {
    let read = book::read_book(book);
    console::print_answer(out, read.map(|_| 0))?;
    print_parts(out, book, read.map_or(0, |h| h.count))
}

// Reads the next case and prints its line; false where there is no whole case left.
fn run_case<R: Read, W: Write>(input: &mut R, out: &mut W, room: &mut [u8]) -> io::Result<bool> {
    let Some(book) = console::next_front(input, room)? else {
        return Ok(false);
    };
    if !console::filled(input, book)? {
        return Ok(false);
    }
    print_line(out, book)?;
    Ok(true)
}

fn main(rt: HostRuntime) -> io::Result<()> {
    let mut input = rt.reader();
    let mut out = io::writer(&rt);
    let mut room = [0u8; 60001];
    console::run_all(|| run_case(&mut input, &mut out, &mut room))
}
