// Derivation to trace: the trace's numbers written in order.
#![tactic(auto)]

ghost use Rattle.std.specs.Prelude.{◌≡◌, ◌+◌, false, map, ◌≤◌, length, replicate};
ghost use Rattle.meaning.specs.Book.{place_window};
ghost use Rattle.meaning.specs.State as meanings;
ghost use Rattle.meaning.specs.State.{bit, low_row, low_rows};
ghost use Rattle.lists.specs.Trace.{flat, state_numbers};
ghost use Rattle.lists.specs.Convert.{as_trace};
ghost use Rattle.book.specs.Held.{meant};
ghost use Rattle.state.specs.State.{rows_of, held};
ghost use Rattle.steps.specs.Put.{Put};
ghost use Rattle.steps.specs.Walk.{Walk};

use book::Book;
use state::State;
use table::Table;

// each flag as a number, from `at` on: one loop over the room, since a writer that moves on at each flag took twice the time at sixteen relations
fn write_flags(flags: &[bool], room: &mut [i32], at: usize)
    requires { at + length flags.now ≤ length room.old }
    ensures { Put room.old room.new at (map bit flags.now) }
{
    for j in 0..flags.len() {
        room[at + j] = flags[j] as i32;
    }
}

// A lent room, and where writing stands in it.
#[derive(Drop)]
struct Writer<'a> {
    room: &'a mut [i32],
    at: usize,
}

impl<'a> Writer<'a> {
    ghost use Rattle.forth.specs.Puts.{HasRoom, Puts};

    // all numbers of a list
    fn numbers(&mut self, numbers: &[i32])
        requires { HasRoom self.old numbers.now }
        ensures { Puts self.old self.new numbers.now }
    {
        steps::copy(numbers, 0, numbers.len(), self.room, self.at);
        self.at += numbers.len();
    }

    // each flag as a number
    fn flags(&mut self, flags: &[bool])
        requires { HasRoom self.old (map bit flags.now) }
        ensures { Puts self.old self.new (map bit flags.now) }
    {
        write_flags(flags, self.room, self.at);
        self.at += flags.len();
    }

    // the places of all relations
    fn places(&mut self, book: &Book, state: &State)
        requires { HasRoom self.old (flat (rows_of (meant book.now).arities state.now.rows)) }
        ensures { Puts self.old self.new (flat (rows_of (meant book.now).arities state.now.rows)) }
    {
        for r in 0..book.relations() {
            let many = book.arity(r);
            self.numbers(&state.rows[r][..many]);
        }
    }

    // a state's numbers
    fn state(&mut self, book: &Book, state: &State)
        requires { HasRoom self.old (state_numbers (meant book.now) meanings.flags (held (meant book.now) state.now)) }
        ensures { Puts self.old self.new (state_numbers (meant book.now) meanings.flags (held (meant book.now) state.now)) }
    {
        self.flags(&state.flags[..book.relations()]);
        self.places(book, state);
    }
}

// ---- the first state: no flag is set, and each place is at the low end of its window

// the places of relation r
fn low_row(book: &Book, r: usize) -> [i32; 8]
    ensures { result ≡ low_row (place_window (meant book.now) r) 8 }
{
    let mut row = [0i32; 8];
    for j in 0..8 {
        row[j] = book.place_window(r, j).lo;
    }
    row
}

// eight of each of sixteen relations
fn low_rows(book: &Book) -> [[i32; 8]; 16]
    ensures { result ≡ low_rows (place_window (meant book.now)) (replicate 16 8) }
{
    let mut rows = [[0i32; 8]; 16];
    for r in 0..16 {
        rows[r] = low_row(book, r);
    }
    rows
}

// the first state
fn low_state(book: &Book) -> State
    ensures { (result.flags ≡ replicate 16 false) × (result.rows ≡ low_rows (place_window (meant book.now)) (replicate 16 8)) }
{
    State {
        flags: [false; 16],
        rows: low_rows(book),
    }
}

// ---- the walk

// Writes the trace's numbers to the front of the room: the first state, then each step in order with the state after it.
pub fn write(table: &Table, list: &[i32], room: &mut [i32])
    requires walk { Walk table.now.book.bytes.now table.now.book.header list.now 0 0 }
    requires fits { length (as_trace (meant table.now.book) meanings.flags list.now) ≤ length room.old }
    ensures { Put room.old room.new 0 (as_trace (meant table.now.book) meanings.flags list.now) }
{
    let mut out = Writer { room, at: 0 };
    let mut state = low_state(&table.book);
    out.state(&table.book, &state);
    let mut i = 0;
    while i < list.len() {
        let k = instance::number_in(&table.book, list, i);
        let n = 1 + table.row(k).variables as usize;
        state.put(table, k, list, i + 1);
        out.numbers(&list[i..i + n]);
        out.state(&table.book, &state);
        i += n;
    }
}
