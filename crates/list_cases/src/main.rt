// Reads lists with their books and goals from standard input, and prints a line for each: number and
// place of the answer that the derivation check or the trace check gives. Numbers have four bytes,
// little-endian. A case is: the call (1 the derivation check, 2 the trace check); the book's length and
// its bytes; the goal's relation in two numbers, low and high; how many values it has, and these; how
// many pieces the list has, and these. A piece is how many numbers are written of it, how many it has,
// and those written: it goes on with the written ones over again. What must be printed is worked out by
// tests/list_cases.py.
#![tactic(auto)]

use console::{Case, Form, Space};
use std::io;
use std::io::{Read, Write};

fn check(form: Form, case: &Case<'_>) -> reply::Answer {
    match form {
        Form::Derivation => derivation::check(case.book, case.list, case.relation, case.values),
        Form::Trace => trace::check(case.book, case.list, case.relation, case.values),
    }
}

// Reads the next case and prints its line; false where there is none left.
fn run_case<R: Read, W: Write>(
    input: &mut R,
    out: &mut W,
    space: &mut Space,
    list: &mut [i32],
) -> io::Result<bool> {
    let call = console::next(input)?;
    let n = console::next(input)?;
    let Some(form) = Form::of_call(call) else {
        return Ok(false);
    };
    let Some(case) = space.rest_of_case(input, n, list)? else {
        return Ok(false);
    };
    console::print_answer(out, check(form, &case))?;
    writeln!(out)?;
    Ok(true)
}

fn main(rt: HostRuntime) -> io::Result<()> {
    let mut input = rt.reader();
    let mut out = io::writer(&rt);
    let mut space = Space::new();
    let mut list = [0i32; 1000001];
    console::run_all(|| run_case(&mut input, &mut out, &mut space, &mut list))
}
