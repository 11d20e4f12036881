// Reads lists with their books, goals and rooms from standard input, converts each, and prints a line for
// it: number and place of the answer, and a checksum of the whole room after the call. Numbers have four
// bytes, little-endian. A case is: the call (1 derivation to trace, 2 trace to derivation); 0 where the
// list lies in the smaller of two buffers and the room in the larger, 1 where it is the other way; the
// room's length; the book's length and its bytes; the goal's relation in two numbers, low and high; how
// many values it has, and these; how many pieces the list has, and these. A piece is how many numbers are
// written of it, how many it has, and those written: it goes on with the written ones over again. What
// must be printed is worked out by tests/convert_cases.py.
#![tactic(auto)]

ghost use Rattle.std.specs.Prelude.{◌≡◌, ◌+◌, ◌*◌, ◌%◌};
ghost use Rattle.std.specs.Int.{w32, cast_unsigned};

use console::{Case, Form, Space};
use std::io;
use std::io::{Read, Write};

// Fills the room with numbers that tell their position. The like in `text_cases` has other types and another formula.
fn fill(room: &mut [i32]) {
    for (i, x) in room.iter_mut().enumerate() {
        *x = !((i % 1000) as i32);
    }
}

// The checksum of what came before, and one number more.
fn summed(sum: u32, n: i32) -> u32
    ensures { result ≡ (sum * 65537 + cast_unsigned w32 n) % 2147483647 }
{
    ((u64::from(sum) * 65537 + u64::from(n.cast_unsigned())) % 2147483647) as u32
}

fn checksum(room: &[i32]) -> u32 {
    room.iter().fold(0, |sum, n| summed(sum, *n))
}

// Converts the list to the other form.
fn convert(form: Form, case: &Case<'_>, room: &mut [i32]) -> reply::Answer {
    match form {
        Form::Derivation => convert::to_trace(
            case.book,
            case.list,
            case.relation,
            case.values,
            room,
        ),
        Form::Trace => convert::to_derivation(
            case.book,
            case.list,
            case.relation,
            case.values,
            room,
        ),
    }
}

// Converts the case's list into the room, filled before, and prints its line.
fn run<W: Write>(out: &mut W, form: Form, case: &Case<'_>, room: &mut [i32]) -> io::Result<()> {
    fill(room);
    console::print_answer(out, convert(form, case, room))?;
    writeln!(out, " {}", checksum(room))
}

// Reads a case, its call and side apart, and prints its line; false where it does not fit.
fn run_in<R: Read, W: Write>(
    input: &mut R,
    out: &mut W,
    form: Form,
    space: &mut Space,
    list: &mut [i32],
    room: &mut [i32],
) -> io::Result<bool> {
    let k = console::next(input)?;
    let n = console::next(input)?;
    let Some(room) = room.get_mut(..k) else {
        return Ok(false);
    };
    let Some(case) = space.rest_of_case(input, n, list)? else {
        return Ok(false);
    };
    run(out, form, &case, room)?;
    Ok(true)
}

// Reads the next case and prints its line; false where there is none left.
fn run_case<R: Read, W: Write>(
    input: &mut R,
    out: &mut W,
    space: &mut Space,
    smaller: &mut [i32],
    larger: &mut [i32],
) -> io::Result<bool> {
    let call = console::next(input)?;
    let side = console::next(input)?;
    let Some(form) = Form::of_call(call) else {
        return Ok(false);
    };
    if side == 0 {
        run_in(input, out, form, space, smaller, larger)
    } else {
        run_in(input, out, form, space, larger, smaller)
    }
}

fn main(rt: HostRuntime) -> io::Result<()> {
    let mut input = rt.reader();
    let mut out = io::writer(&rt);
    let mut space = Space::new();
    let mut smaller = [0i32; 500000];
    let mut larger = [0i32; 1000001];
    console::run_all(|| run_case(&mut input, &mut out, &mut space, &mut smaller, &mut larger))
}
