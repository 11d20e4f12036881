// One step of a list: values by where they stand, and whether its instance holds.
#![tactic(auto)]

ghost use Rattle.std.specs.Prelude.{◌≡◌, [], ◌+◌, ◌<◌, ◌≤◌, length, get_or, take, drop, pos};
ghost use Rattle.meaning.specs.Book.{variable_window};
ghost use Rattle.reply.specs.Answer.{told, giving};
ghost use Rattle.lists.specs.Compare.{eq_z, eq_vals, inside, first_out};
ghost use Rattle.lists.specs.Instance.{clause_number, clause_at, judge_clause, judge};
ghost use Rattle.book.specs.Meaning.{book_in};
ghost use Rattle.book.specs.Held.{meant};
ghost use Rattle.book.specs.Windows.{window_of};
ghost use Rattle.instance.specs.Values.{number_or, number_in, values_at, Valued};

use book::{Book, Header, Window};
use reply::{Answer, refuse};
use table::Table;

// ---- numbers of a list

// The number at i as a clause's, or n if it is below zero.
pub fn number_at(list: &[i32], i: usize, n: usize) -> usize
    requires { i < length list.now }
    ensures { result ≡ number_or n (get_or list.now i (pos 0)) }
{
    let x = list[i];
    if x < 0 { n } else { x as usize }
}

// The clause that the number at i names, where it names one.
pub fn number_in(book: &Book, list: &[i32], i: usize) -> usize
    requires { (i < length list.now) × (number_in book.now.bytes.now book.now.header list.now i < book.now.header.count) }
    ensures { result ≡ number_in book.now.bytes.now book.now.header list.now i }
{
    list[i] as usize
}

// Whether the number at i lies in the window.
pub fn inside_at(list: &[i32], i: usize, w: Window) -> bool
    requires { i < length list.now }
    ensures { result ≡ inside (window_of w) (get_or list.now i (pos 0)) }
{
    let x = list[i];
    w.lo <= x && x <= w.hi
}

// Whether two numbers of lists are the same.
pub fn same_at(list: &[i32], i: usize, values: &[i32], j: usize) -> bool
    requires { (i < length list.now) × (j < length values.now) }
    ensures { result ≡ eq_z (get_or list.now i (pos 0)) (get_or values.now j (pos 0)) }
{
    list[i] == values[j]
}

// ---- values of arguments: those of the variables stand from `from` on in the list, the arguments from byte p on in the book

// where the value of the argument at byte p stands
pub fn spot(book: &[u8], p: usize, from: usize) -> usize
    requires { (p < length book.now) × (from + get_or book.now p 0 < 18446744073709551616) }
    ensures { result ≡ from + get_or book.now p 0 }
{
    from + book[p] as usize
}

// Whether n arguments from byte p on have the same values as those from byte q on.
pub fn same_values(
    book: &[u8],
    list: &[i32],
    p: usize,
    from: usize,
    q: usize,
    since: usize,
    n: usize,
) -> bool
    requires { (Valued book.now (length list.now) p from n) × (Valued book.now (length list.now) q since n) }
    ensures { result ≡ eq_vals (values_at book.now list.now p from n) (values_at book.now list.now q since n) }
{
    for j in 0..n {
        let one = spot(book, p + j, from);
        let other = spot(book, q + j, since);
        if !same_at(list, one, list, other) {
            return false;
        }
    }
    true
}

// Whether n arguments from byte p on have the first n of these values.
pub fn values_are(
    book: &[u8],
    list: &[i32],
    p: usize,
    from: usize,
    n: usize,
    values: &[i32],
) -> bool
    requires { (Valued book.now (length list.now) p from n) × (n ≤ length values.now) }
    ensures { result ≡ eq_vals (values_at book.now list.now p from n) (take n values.now) }
{
    for j in 0..n {
        if !same_at(list, spot(book, p + j, from), values, j) {
            return false;
        }
    }
    true
}

// ---- judging

// The place of the first of the v values from `from` on that lies outside the window of its variable of clause k, or the place after them, as the
// definition says: lists that follow one another are then searched one after the other.
pub fn first_out(book: &[u8], h: Header, k: usize, list: &[i32], from: usize, v: usize) -> usize
    requires { from + v ≤ length list.now }
    ensures { result ≡ first_out (variable_window (book_in book.now h) (clause_at (book_in book.now h) k)) from (take v (drop from list.now)) }
{
    for j in 0..v {
        if !inside_at(list, from + j, book::variable_window(book, h, k, j)) {
            return from + j;
        }
    }
    from + v
}

// 13 to 15: whether an instance of clause k begins at i, after whose values `more` numbers follow. Both are inlined, so that no answer is handed
// over in memory at each step: without that the check of a derivation took 1.6 times as long at constraints of one node (measured).
#[inline(always)]
pub fn judged(table: &Table, k: usize, list: &[i32], i: usize, more: usize) -> Answer
    requires { (k < table.now.book.header.count) × (i < length list.now) }
    ensures { result ≡ told (judge_clause (meant table.now.book) (clause_at (meant table.now.book) k) more (drop (i + 1) list.now) i) }
{
    let from = i + 1;
    let row = table.row(k);
    let v = row.variables as usize;
    if list.len() - from < v {
        return refuse(13, i);
    }
    if list.len() - from - v < more {
        return refuse(13, i);
    }
    let out = first_out(table.book.bytes, table.book.header, k, list, from, v);
    if out < from + v {
        return refuse(14, out);
    }
    if truth::truth(
        table.book.bytes,
        row.rule as usize,
        row.variables,
        list,
        from,
    ) {
        Ok(0)
    } else {
        refuse(15, i)
    }
}

// 12 to 15: the same of the step that begins at i; done with its clause.
#[inline(always)]
pub fn instance_at(table: &Table, list: &[i32], i: usize, more: usize) -> Answer
    requires { i < length list.now }
    ensures { result ≡ giving (judge (meant table.now.book) (number_in table.now.book.bytes.now table.now.book.header list.now i) more (drop (i + 1) list.now) i) (number_in table.now.book.bytes.now table.now.book.header list.now i) }
{
    let count = table.book.header.count;
    let k = number_at(list, i, count);
    if count <= k {
        return refuse(12, i);
    }
    judged(table, k, list, i, more)?;
    Ok(k)
}
