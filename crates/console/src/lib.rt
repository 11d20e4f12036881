// What the programs read from standard input and write to standard output.
#![tactic(auto)]

ghost use Rattle.std.specs.Prelude.{◌+◌, ◌*◌, ◌≤◌, ◌<◌, ◌≡◌, ◌⊎◌, true, false, length, min, take, drop, fold, replicate, pos, IfOk, IfSome, IsNone};
ghost use Rattle.std.specs.Io.KnownBytes.{Consumes, IsAtEnd};
ghost use Rattle.console.specs.Console.{sum_on, again, form_of, Gives};

use std::io;
use std::io::{Read, Write};

// How many cases a program runs at most.
const CASES: u32 = 100000;

// Runs one case after the other, until one says that there is none left.
pub fn run_all<F: FnMut() -> io::Result<bool>>(mut run_case: F) -> io::Result<()>
    requires { F.IsAlwaysCallable run_case }
{
    for _ in 0..CASES {
        if !run_case()? {
            break;
        }
    }
    Ok(())
}

// ---- to standard output: these give nothing back but a failed write's error, and what is lent to them stays as it is

// A call's answer: 0 and the length that was written, or the refusal's number and place.
pub fn print_answer<W: Write>(out: &mut W, answer: reply::Answer) -> io::Result<()> {
    match answer {
        Ok(n) => write!(out, "0 at {n}"),
        Err(r) => write!(out, "{} at {}", r.number, r.place),
    }
}

// The checksum of what came before, and one byte more.
fn summed(sum: u16, b: u8) -> u16
    ensures { result ≡ sum_on sum b }
{
    ((u32::from(sum) * 257 + u32::from(b)) % 65521) as u16
}

fn checksum(part: &[u8]) -> u16
    ensures { result ≡ fold sum_on 0 part.now }
{
    part.iter().fold(0, |sum, b| summed(sum, *b))
}

// A part of a room or a book, as its length and a checksum of its bytes.
pub fn print_sum<W: Write>(out: &mut W, part: &[u8]) -> io::Result<()> {
    write!(out, " {}:{}", part.len(), checksum(part))
}

// ---- from standard input: bytes, and numbers of four bytes, little-endian; a failed read's error ends each of them

// Puts bytes into the room until it is full or the input ends; gives how many.
pub fn read_full<R: Read>(input: &mut R, room: &mut [u8]) -> io::Result<usize>
    ensures length { length room.new ≡ length room.old }
    ensures within { IfOk result (λ n. n ≤ length room.old) }
    ensures bytes { IfOk result (λ n. Consumes (R.remaining input.old) (R.remaining input.new) (take n room.new)) }
    ensures ended { IfOk result (λ n. n < length room.old → IsAtEnd (R.remaining input.new)) }
{
    let mut done = 0;
    // a reader gives as many bytes at a time as it likes
    while done < room.len() {
        let n = input.read(&mut room[done..])?;
        if n == 0 {
            return Ok(done);
        }
        done += n;
    }
    Ok(done)
}

// Whether the whole room could be filled.
pub fn filled<R: Read>(input: &mut R, room: &mut [u8]) -> io::Result<bool>
    ensures length { length room.new ≡ length room.old }
    ensures bytes { IfOk result (λ b. b ≡ true → Consumes (R.remaining input.old) (R.remaining input.new) room.new) }
    ensures ended { IfOk result (λ b. b ≡ false → IsAtEnd (R.remaining input.new)) }
{
    let n = read_full(input, room)?;
    Ok(n == room.len())
}

// Puts n bytes into the front of the room, or those that are left of the input; the rest keeps its bytes.
pub fn put_bytes<R: Read>(input: &mut R, room: &mut [u8], n: usize) -> io::Result<()>
    requires { n ≤ length room.old }
    ensures length { length room.new ≡ length room.old }
    ensures bytes { IfOk result (λ _. Consumes (R.remaining input.old) (R.remaining input.new) (take n room.new) ⊎ IsAtEnd (R.remaining input.new)) }
    ensures rest { drop n room.new ≡ drop n room.old }
{
    read_full(input, &mut room[..n])?;
    Ok(())
}

// The next length; none at the end of the input.
pub fn next_length<R: Read>(input: &mut R) -> io::Result<Option<usize>>
    ensures within { IfOk result (λ o. IfSome o (λ n. n < 4294967296)) }
    ensures bytes { IfOk result (λ o. IfSome o (λ n. Gives (R.remaining input.old) (R.remaining input.new) n)) }
    ensures ended { IfOk result (λ o. IsNone o → IsAtEnd (R.remaining input.new)) }
{
    let mut bytes = [0u8; 4];
    if filled(input, &mut bytes)? {
        return Ok(Some(whole::u32_at(&bytes, 0) as usize));
    }
    Ok(None)
}

// The front of the room, of the next length; none at the end of the input, and where the room is shorter.
pub fn next_front<'a, R: Read>(
    input: &mut R,
    room: &'a mut [u8],
) -> io::Result<Option<&'a mut [u8]>>
    ensures { IfOk result (λ o. IfSome o (λ part. Gives (R.remaining input.old) (R.remaining input.new) (length part.now))) }
{
    let Some(n) = next_length(input)? else {
        return Ok(None);
    };
    Ok(room.get_mut(..n))
}

// The next four bytes; 0 for each that is behind the end of the input.
fn next_bytes<R: Read>(input: &mut R) -> io::Result<[u8; 4]>
    ensures { IfOk result (λ bs. Consumes (R.remaining input.old) (R.remaining input.new) bs ⊎ IsAtEnd (R.remaining input.new)) }
{
    let mut bytes = [0u8; 4];
    read_full(input, &mut bytes)?;
    Ok(bytes)
}

// The next number; 0 at the end of the input.
pub fn next<R: Read>(input: &mut R) -> io::Result<usize>
    ensures within { IfOk result (λ n. n < 4294967296) }
    ensures bytes { IfOk result (λ n. Gives (R.remaining input.old) (R.remaining input.new) n ⊎ IsAtEnd (R.remaining input.new)) }
{
    let bytes = next_bytes(input)?;
    Ok(whole::u32_at(&bytes, 0) as usize)
}

// A number of eight bytes, out of its halves.
pub fn long(low: usize, high: usize) -> usize
    requires { (low < 4294967296) × (high < 4294967296) }
    ensures { result ≡ low + high * 4294967296 }
{
    low + high * 4294967296
}

// The next number of a list; 0 at the end of the input.
fn next_int<R: Read>(input: &mut R) -> io::Result<i32> {
    let bytes = next_bytes(input)?;
    Ok(whole::int_at(&bytes, 0))
}

// ---- lists, in pieces: how many numbers are written of a piece, how many it has, and those written, with which it goes on over again

// Puts `count` numbers of the input into the room, as far as it goes; gives how many.
pub fn put_written<R: Read>(input: &mut R, room: &mut [i32], count: usize) -> io::Result<usize>
    ensures length { length room.new ≡ length room.old }
    ensures ends { IfOk result (λ n. n ≡ min count (length room.old)) }
{
    let n = count.min(room.len());
    for x in &mut room[..n] {
        *x = next_int(input)?;
    }
    Ok(n)
}

// Goes on for `more` numbers with the `count` that stand before `at`, over again; gives where they end.
fn put_again(room: &mut [i32], at: usize, count: usize, more: usize) -> usize
    requires { (count ≤ at) × (at ≤ length room.old) }
    ensures { (room.new ≡ again more count at room.old) × (result ≡ min (at + more) (length room.old)) }
{
    let end = at + more.min(room.len() - at);
    for i in at..end {
        room[i] = room[i - count];
    }
    end
}

// Puts the next piece behind the first `at` numbers of the room; gives where it ends.
fn put_piece<R: Read>(input: &mut R, room: &mut [i32], at: usize) -> io::Result<usize>
    requires { at ≤ length room.old }
    ensures length { length room.new ≡ length room.old }
    ensures within { IfOk result (λ end. end ≤ length room.old) }
{
    let count = next(input)?;
    let all = next(input)?;
    let end = at + put_written(input, &mut room[at..], count)?;
    if end < count {
        return Ok(end);
    }
    Ok(put_again(room, end, count, all.saturating_sub(count)))
}

// Puts the next list into the room: how many pieces it has, and these; gives its length.
pub fn put_list<R: Read>(input: &mut R, room: &mut [i32]) -> io::Result<usize>
    ensures { IfOk result (λ end. end ≤ length room.old) }
{
    let pieces = next(input)?;
    let mut end = 0;
    for _ in 0..pieces {
        end = put_piece(input, room, end)?;
    }
    Ok(end)
}

// ---- cases of a list

// What a list of a case is.
#[derive(Clone, Copy)]
pub enum Form {
    Derivation,
    Trace,
}

impl Form {
    // By the number of a call: 1 is that for derivations, and 0 says that there is no case left.
    pub fn of_call(call: usize) -> Option<Form>
        ensures { result ≡ form_of call }
    {
        match call {
            0 => None,
            1 => Some(Form::Derivation),
            _ => Some(Form::Trace),
        }
    }
}

// A list, with its book and the goal's relation and values.
#[derive(Clone, Copy)]
pub struct Case<'a> {
    pub book: &'a [u8],
    pub list: &'a [i32],
    pub relation: usize,
    pub values: &'a [i32],
}

// Where a case's book and values are put.
#[derive(Drop)]
pub struct Space {
    book: [u8; 60001],
    values: [i32; 32],
}

impl Space {
    pub fn new() -> Space
        ensures { (result.book ≡ replicate 60001 0) × (result.values ≡ replicate 32 (pos 0)) }
    {
        Space {
            book: [0; 60001],
            values: [0; 32],
        }
    }

    // Reads the rest of a case whose book has n bytes, the list into the room; none where the book is too long.
    pub fn rest_of_case<'a, R: Read>(
        &'a mut self,
        input: &mut R,
        n: usize,
        room: &'a mut [i32],
    ) -> io::Result<Option<Case<'a>>>
        ensures { IfOk result (λ o. IfSome o (λ c. (length c.book.now ≡ n) × (length c.list.now ≤ length room.old))) }
    {
        let Space { book, values } = self;
        if book.len() < n {
            return Ok(None);
        }
        put_bytes(input, book, n)?;
        let low = next(input)?;
        let high = next(input)?;
        let relation = long(low, high);
        let count = next(input)?;
        let v = put_written(input, values, count)?;
        let m = put_list(input, room)?;
        Ok(Some(Case {
            book: &book[..n],
            list: &room[..m],
            relation,
            values: &values[..v],
        }))
    }
}
