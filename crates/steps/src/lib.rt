// One step of a list of numbers: the place after it, and its numbers copied into lent room.
#![tactic(auto)]

ghost use Rattle.std.specs.Prelude.{◌+◌, ◌≤◌, ◌≡◌, length, take, drop};
ghost use Rattle.lists.specs.Places.{after as after_step};
ghost use Rattle.book.specs.Held.{meant};
ghost use Rattle.steps.specs.Put.{Put};
ghost use Rattle.steps.specs.Walk.{Here};

use table::Table;

// The place after the step that begins at i and the z numbers after it.
pub fn after(table: &Table, list: &[i32], z: usize, i: usize) -> usize
    requires { Here table.now.book.bytes.now table.now.book.header list.now z i }
    ensures { result ≡ after_step (meant table.now.book) z list.now i }
{
    let k = instance::number_in(&table.book, list, i);
    i + 1 + table.row(k).variables as usize + z
}

// Copies n numbers of the list from `from` on into the room from `at` on.
pub fn copy(list: &[i32], from: usize, n: usize, room: &mut [i32], at: usize)
    requires { (from + n ≤ length list.now) × (at + n ≤ length room.old) }
    ensures { Put room.old room.new at (take n (drop from list.now)) }
{
    // a loop: `copy_from_slice` made C's archive need `memmove` from outside, which nothing else in it does
    for j in 0..n {
        room[at + j] = list[from + j];
    }
}
