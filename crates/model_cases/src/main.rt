// Reads cases from standard input, each as the length of a book, the length of a model (four bytes
// each, little-endian) and the bytes of both, and prints the whole reply of the model check on a
// line for each. What must be printed is worked out by tests/model_cases.py.
#![tactic(auto)]

use std::io;
use std::io::{Read, Write};

fn print_reply<W: Write>(out: &mut W, x: model::Reply) -> io::Result<()> {
    console::print_answer(out, x.answer)?;
    write!(out, " count {} clause {} values", x.count, x.clause)?;
    for value in &x.values {
        write!(out, " {value}")?;
    }
    writeln!(out)
}

// Reads the next case and prints its line; false where there is no whole case left.
fn run_case<R: Read, W: Write>(
    input: &mut R,
    out: &mut W,
    books: &mut [u8],
    models: &mut [u8],
) -> io::Result<bool> {
    let Some(book) = console::next_front(input, books)? else {
        return Ok(false);
    };
    let Some(model) = console::next_front(input, models)? else {
        return Ok(false);
    };
    if !console::filled(input, book)? || !console::filled(input, model)? {
        return Ok(false);
    }
    print_reply(out, model::check(book, model))?;
    Ok(true)
}

fn main(rt: HostRuntime) -> io::Result<()> {
    let mut input = rt.reader();
    let mut out = io::writer(&rt);
    let mut books = [0u8; 60001];
    let mut models = [0u8; 70000];
    console::run_all(|| run_case(&mut input, &mut out, &mut books, &mut models))
}
