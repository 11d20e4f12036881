// The walked state of a trace: sixteen flags and sixteen rows of eight places, by value.
#![tactic(auto)]

ghost use Rattle.std.specs.Prelude.{◌≡◌, false, true, map, ◌+◌, ◌<◌, ◌≤◌, length, get_or, take, drop, set, replicate, pos};
ghost use Rattle.meaning.specs.Book.{place_window};
ghost use Rattle.meaning.specs.State as state;
ghost use Rattle.meaning.specs.State.{bit};
ghost use Rattle.lists.specs.Compare.{eq_z, first_diff, first_out};
ghost use Rattle.lists.specs.Trace.{flat, sum, cut, first_out_rows};
ghost use Rattle.book.specs.Held.{meant};
ghost use Rattle.instance.specs.Values.{values_at, Valued};
ghost use Rattle.state.specs.State.{front, rows_of, over, first_rows, Sized};

use book::Book;
use table::Table;

// The flags of sixteen relations, and a row of eight places for each.
#[derive(Clone, Copy)]
pub struct State {
    pub flags: [bool; 16],
    pub rows: [[i32; 8]; 16],
}

// ---- comparing with a list: the place after the numbers stands for none, as `first_diff` and `first_out` say; a `for` by place, since two lists go along

// whether the number at i is the flag's
fn flag_same(list: &[i32], i: usize, flag: bool) -> bool
    requires { i < length list.now }
    ensures { result ≡ eq_z (get_or list.now i (pos 0)) (bit flag) }
{
    list[i] == flag as i32
}

// The first of n numbers from `at` on that is not its flag's, or the place after them.
pub fn flags_differ(list: &[i32], at: usize, flags: &[bool; 16], n: usize) -> usize
    requires { (n ≤ 16) × (at + n ≤ length list.now) }
    ensures { result ≡ first_diff at (drop at list.now) (map bit (front false n flags.now)) }
{
    for j in 0..n {
        if !flag_same(list, at + j, flags[j]) {
            return at + j;
        }
    }
    at + n
}

// the first of n numbers from `at` on that is not the row's, or the place after them
fn row_differs(list: &[i32], at: usize, row: &[i32], n: usize) -> usize
    requires { (n ≤ length row.now) × (at + n ≤ length list.now) }
    ensures { result ≡ first_diff at (drop at list.now) (front (pos 0) n row.now) }
{
    for j in 0..n {
        if !instance::same_at(list, at + j, row, j) {
            return at + j;
        }
    }
    at + n
}

// the first of the places of relation r, n from `at` on, that lies outside its window, or the place after them
fn row_out(book: &Book, r: usize, list: &[i32], at: usize, n: usize) -> usize
    requires { at + n ≤ length list.now }
    ensures { result ≡ first_out (place_window (meant book.now) r) at (take n (drop at list.now)) }
{
    for j in 0..n {
        if !instance::inside_at(list, at + j, book.place_window(r, j)) {
            return at + j;
        }
    }
    at + n
}

// The first of a state's places, which stand from `at` on, that lies outside its window, or the place after them.
pub fn places_out(book: &Book, list: &[i32], at: usize) -> usize
    requires { at + sum (meant book.now).arities ≤ length list.now }
    ensures { result ≡ first_out_rows (place_window (meant book.now)) at (cut (meant book.now).arities (drop at list.now)) }
{
    let mut p = at;
    for r in 0..book.relations() {
        let many = book.arity(r);
        let o = row_out(book, r, list, p, many);
        if o < p + many {
            return o;
        }
        p += many;
    }
    p
}

// ---- rows, written in place

// the n numbers from `at` on put over the front of a row
fn load(list: &[i32], at: usize, n: usize, row: &mut [i32])
    requires { (n ≤ length row.old) × (at + n ≤ length list.now) }
    ensures { row.new ≡ over (take n (drop at list.now)) row.old }
{
    row[..n].copy_from_slice(&list[at..at + n]);
}

// the values of n arguments put over the front of a row
fn fill(book: &[u8], list: &[i32], p: usize, from: usize, n: usize, row: &mut [i32])
    requires { (n ≤ length row.old) × (Valued book.now (length list.now) p from n) }
    ensures { row.new ≡ over (values_at book.now list.now p from n) row.old }
{
    for j in 0..n {
        row[j] = list[instance::spot(book, p + j, from)];
    }
}

// ---- states

// How many numbers a state has: a flag for each relation, then all places.
pub fn size(book: &Book) -> usize
    ensures { Sized (meant book.now) state.flags result }
{
    let mut total = book.relations();
    for r in 0..book.relations() {
        total += book.arity(r);
    }
    total
}

impl State {
    ghost use Rattle.meaning.specs.Book.{head, body};
    ghost use Rattle.lists.specs.Instance.{clause_at, step_at};
    ghost use Rattle.lists.specs.Derivation.{goal};
    ghost use Rattle.lists.specs.Trace.{size as state_size, state_numbers, has, meets as body_met};
    ghost use Rattle.state.specs.State.{held, row_put};

    // The state with no flag set and the places that stand from `at` on.
    pub fn first(book: &Book, list: &[i32], at: usize) -> State
        requires { at + sum (meant book.now).arities ≤ length list.now }
        ensures flags { result.flags ≡ replicate 16 false }
        ensures rows { result.rows ≡ first_rows (meant book.now).arities (drop at list.now) }
    {
        let mut rows = [[0i32; 8]; 16];
        let mut p = at;
        for r in 0..book.relations() {
            let many = book.arity(r);
            load(list, p, many, &mut rows[r]);
            p += many;
        }
        State {
            flags: [false; 16],
            rows,
        }
    }

    // The head of a step by clause k, its values from `from` on in the list, put in: its flag set, its row replaced.
    pub fn put(&mut self, table: &Table, k: usize, list: &[i32], from: usize)
        requires { (k < table.now.book.header.count) × (from + (clause_at (meant table.now.book) k).vars ≤ length list.now) }
        ensures flags { self.new.flags ≡ set self.old.flags (head (meant table.now.book) (step_at (meant table.now.book) k (drop from list.now))).rel true }
        ensures rows { self.new.rows ≡ row_put (head (meant table.now.book) (step_at (meant table.now.book) k (drop from list.now))) self.old.rows }
    {
        let row = table.row(k);
        let r = row.head.relation as usize;
        self.flags[r] = true;
        fill(
            table.book.bytes,
            list,
            row.head.at as usize,
            from,
            row.head.many as usize,
            &mut self.rows[r],
        );
    }

    // the first number from `at` on that is not the place's, or the place after them
    fn places_differ(&self, book: &Book, list: &[i32], at: usize) -> usize
        requires { at + sum (meant book.now).arities ≤ length list.now }
        ensures { result ≡ first_diff at (drop at list.now) (flat (rows_of (meant book.now).arities self.now.rows)) }
    {
        let mut p = at;
        for r in 0..book.relations() {
            let many = book.arity(r);
            let d = row_differs(list, p, &self.rows[r], many);
            if d < p + many {
                return d;
            }
            p += many;
        }
        p
    }

    // The first number from `at` on that is not the state's, or the place after them.
    pub fn differs(&self, book: &Book, list: &[i32], at: usize) -> usize
        requires { at + state_size (meant book.now) state.flags ≤ length list.now }
        ensures { result ≡ first_diff at (drop at list.now) (state_numbers (meant book.now) state.flags (held (meant book.now) self.now)) }
    {
        let n = book.relations();
        let d = flags_differ(list, at, &self.flags, n);
        if d < at + n {
            return d;
        }
        self.places_differ(book, list, at + n)
    }

    // Whether a state holds a fact: a relation with its values.
    pub fn holds(&self, book: &Book, relation: usize, values: &[i32]) -> bool
        requires { (relation < book.now.header.relations) × (length values.now ≡ get_or (meant book.now).arities relation 0) }
        ensures { result ≡ has (meant book.now) state.flags (goal relation values.now) (held (meant book.now) self.now) }
    {
        self.flags[relation]
            && values.len() <= row_differs(&self.rows[relation], 0, values, values.len())
    }

    // Whether a state meets the body of a step by clause k, whose values stand from `from` on in the list.
    pub fn meets(&self, table: &Table, k: usize, list: &[i32], from: usize) -> bool
        requires { (k < table.now.book.header.count) × (from + (clause_at (meant table.now.book) k).vars ≤ length list.now) }
        ensures { result ≡ body_met (meant table.now.book) state.flags (body (meant table.now.book) (step_at (meant table.now.book) k (drop from list.now))) (held (meant table.now.book) self.now) }
    {
        let row = table.row(k);
        let Some(b) = row.body else {
            return true;
        };
        let r = b.relation as usize;
        self.flags[r]
            && instance::values_are(
                table.book.bytes,
                list,
                b.at as usize,
                from,
                b.many as usize,
                &self.rows[r],
            )
    }
}
