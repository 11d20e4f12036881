// The printing program: reads a clause book from standard input and writes its text, or the one
// line `refused N at P` with number and place. One byte more than the longest book has is read, and
// nothing past it: a longer input is refused as 1 at 0 whatever else is in it.
#![tactic(auto)]

use std::io;
use std::io::Write;

fn run<W: Write>(out: &mut W, book: &[u8], room: &mut [u8]) -> io::Result<()> {
    match text::print(book, room) {
        Ok(n) => out.write_all(&room[..n]),
        Err(r) => writeln!(out, "refused {} at {}", r.number, r.place),
    }
}

fn main(rt: HostRuntime) -> io::Result<()> {
    let mut from = rt.reader();
    let mut out = io::writer(&rt);
    let mut input = [0u8; 60001];
    let mut room = [0u8; 65536];
    let n = console::read_full(&mut from, &mut input)?;
    run(&mut out, &input[..n], &mut room)
}
