// The two conversions: a trace becomes a derivation, and a derivation a trace, in room that the caller lends.
#![tactic(auto)]

ghost use Rattle.std.specs.Prelude.{◌<◌};
ghost use Rattle.meaning.specs.State as state;
ghost use Rattle.lists.specs.Trace.{size as state_size};
ghost use Rattle.reply.specs.Answer.{ok};
ghost use Rattle.reply.specs.Room.{written, Leaves};
ghost use Rattle.lists.specs.Convert.{as_trace, as_derivation};
ghost use Rattle.book.specs.Held.{meant};
ghost use Rattle.steps.specs.Walk.{Walk};
ghost use Rattle.back.specs.Walk.{Trace};
ghost use Rattle.convert.specs.Calls.{limited, Long, to_trace_due, to_derivation_due};

use book::Book;
use reply::refuse;
use table::Table;

// ---- trace to derivation

// 9, or the derivation of an accepted trace
fn derived(table: &Table, list: &[i32], relation: usize, room: &mut [i32]) -> reply::Answer
    requires trace { Trace table.now.book.bytes.now table.now.book.header state.flags list.now (state_size (meant table.now.book) state.flags) }
    requires relation_bound { relation < 16 }
    ensures { Leaves (written ok (as_derivation (meant table.now.book) state.flags relation list.now) room.old) result room.new }
{
    let size = state::size(&table.book);
    let trace = back::Trace { table, list, size };
    let mut marks = [0u32; 1024];
    let measured = trace.measure(relation, &mut marks);
    let n = measured.numbers;
    if room.len() < n {
        return refuse(9, n);
    }
    trace.write(relation, &marks, measured, room);
    Ok(n)
}

// Takes a trace of the goal, a relation and its values, to the derivation of its last writers, in the book that the bytes hold.
pub fn to_derivation(
    book: &[u8],
    list: &[i32],
    relation: usize,
    values: &[i32],
    room: &mut [i32],
) -> reply::Answer
    ensures { Leaves (to_derivation_due book.now list.now relation values.now room.old) result room.new }
{
    let book = Book::open(book)?;
    let table = Table::of(book);
    trace::check_in(&table, list, relation, values)?;
    derived(&table, list, relation, room)
}

// ---- derivation to trace

// How many numbers a trace may have.
const MOST: usize = 1000000;

// 20, 9, or the trace of an accepted derivation
fn traced(table: &Table, list: &[i32], steps: usize, room: &mut [i32]) -> reply::Answer
    requires walk { Walk table.now.book.bytes.now table.now.book.header list.now 0 0 }
    requires long { Long (meant table.now.book) list.now steps }
    ensures { Leaves (written (limited (as_trace (meant table.now.book) state.flags list.now)) (as_trace (meant table.now.book) state.flags list.now) room.old) result room.new }
{
    let size = state::size(&table.book);
    let all = size + list.len() + steps * size;
    if MOST < all {
        return refuse(20, all);
    }
    if room.len() < all {
        return refuse(9, all);
    }
    forth::write(table, list, room);
    Ok(all)
}

// Takes a derivation of the goal, a relation and its values, to the trace of its steps, in the book that the bytes hold.
pub fn to_trace(
    book: &[u8],
    list: &[i32],
    relation: usize,
    values: &[i32],
    room: &mut [i32],
) -> reply::Answer
    ensures { Leaves (to_trace_due book.now list.now relation values.now room.old) result room.new }
{
    let book = Book::open(book)?;
    let table = Table::of(book);
    let steps = derivation::check_in(&table, list, relation, values)?;
    traced(&table, list, steps, room)
}
