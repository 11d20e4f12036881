// Reads cases from standard input, each as the size of a room, the length of a book (four bytes
// each, little-endian) and the book, and prints a line for each: number and place of the printer's
// answer, then what it wrote and the rest of the room, each as its length and a checksum of its
// bytes. A short text follows as it is. What must be printed is worked out by tests/text_cases.py.
#![tactic(auto)]

ghost use Rattle.std.specs.Prelude.{◌≤◌, length};

use std::io;
use std::io::{Read, Write};

// A longer text is not printed.
const SHOWN: usize = 1500;

// Byte i of the room becomes i mod 251. The like in `convert_cases` has other types and another formula.
fn fill(room: &mut [u8]) {
    for (i, b) in room.iter_mut().enumerate() {
        *b = (i % 251) as u8;
    }
}

// The room after the call, of which n bytes were written.
fn print_room<W: Write>(out: &mut W, room: &[u8], n: usize) -> io::Result<()>
    requires { n ≤ length room.now }
{
    let (text, rest) = room.split_at(n);
    console::print_sum(out, text)?;
    console::print_sum(out, rest)?;
    writeln!(out)?;
    if text.len() <= SHOWN {
        out.write_all(text)?;
    }
    Ok(())
}

fn print_case<W: Write>(out: &mut W, book: &[u8], room: &mut [u8]) -> io::Result<()> {
    fill(room);
    let answer = text::print(book, room);
    console::print_answer(out, answer)?;
    print_room(out, room, answer.unwrap_or(0))
}

// Reads the next case and prints its line; false where there is no whole case left.
fn run_case<R: Read, W: Write>(
    input: &mut R,
    out: &mut W,
    books: &mut [u8],
    rooms: &mut [u8],
) -> io::Result<bool> {
    let Some(room) = console::next_front(input, rooms)? else {
        return Ok(false);
    };
    let Some(book) = console::next_front(input, books)? else {
        return Ok(false);
    };
    if !console::filled(input, book)? {
        return Ok(false);
    }
    print_case(out, book, room)?;
    Ok(true)
}

fn main(rt: HostRuntime) -> io::Result<()> {
    let mut input = rt.reader();
    let mut out = io::writer(&rt);
    let mut books = [0u8; 60001];
    let mut rooms = [0u8; 100000];
    console::run_all(|| run_case(&mut input, &mut out, &mut books, &mut rooms))
}
