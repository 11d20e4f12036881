// Trace to derivation: how many numbers the derivation has, and its numbers written from the last to the first.
// A step's start can't be found from behind: the start of every 512th step is kept, and a block's starts are found again when its turn comes.
#![tactic(auto)]

ghost use Rattle.std.specs.Prelude.{◌≡◌, ◌++◌, ℕ, ◌+◌, ◌*◌, ◌<◌, ◌≤◌, length, get_or, take, drop, Some};
ghost use Rattle.meaning.specs.State.{flags};
ghost use Rattle.back.specs.Walk.{Trace as IsTrace, trace-prop, body_relation, body_count, Kept};
ghost use Rattle.back.specs.Gone.{Wrote};

use table::{Row, Table};

// How many numbers the derivation has, and how many steps' starts are kept.
#[derive(Clone, Copy)]
pub struct Measured {
    pub numbers: usize,
    pub marks: usize,
}

// The relation whose last writer is wanted, if one is, and how many numbers are still to be written in front.
#[derive(Clone, Copy)]
pub struct Wanted {
    pub relation: Option<usize>,
    pub at: usize,
}

// A trace in the table's book, whose states have `size` numbers.
#[derive(Clone, Copy)]
pub struct Trace<'a> {
    pub table: &'a Table<'a>,
    pub list: &'a [i32],
    pub size: usize,
    pub ghost traced: { IsTrace table.now.book.bytes.now table.now.book.header flags list.now size } by { trace-prop _ _ _ _ _ },
}

// the relation of a clause's body, if it has one
fn body_relation(row: Row) -> Option<usize>
    ensures { result ≡ body_relation row }
{
    row.body.map(|x| x.relation as usize)
}

// how many numbers the derivation of a body has, none for no body
fn body_count(counts: &[usize; 16], body: Option<usize>) -> usize
    requires { (r : ℕ) → body ≡ Some r → r < 16 }
    ensures { result ≡ body_count counts.now body }
{
    match body {
        Some(r) => counts[r],
        None => 0,
    }
}

// keeps the start i of step k, where k is a multiple of 512
fn keep(marks: &mut [u32; 1024], k: usize, i: usize)
    requires { (k < 524288) × (i < 4294967296) }
    ensures { Kept marks.old k i marks.new }
{
    if k % 512 == 0 {
        marks[k / 512] = i as u32;
    }
}

// the n numbers of the step at i, in front of `at`
fn write_step(list: &[i32], i: usize, n: usize, at: usize, room: &mut [i32]) -> usize
    requires { (n ≤ at) × (at ≤ length room.old) × (i + n ≤ length list.now) }
    ensures { Wrote (take n (drop i list.now)) at room.old result room.new }
{
    let to = at - n;
    steps::copy(list, i, n, room, to);
    to
}

impl<'a> Trace<'a> {
    ghost use Rattle.lists.specs.Convert.{as_derivation};
    ghost use Rattle.lists.specs.Places.{start};
    ghost use Rattle.back.specs.Held.{book_of, StepAt, StepsFrom, RowAt};
    ghost use Rattle.back.specs.Walk.{Marked, Measures, Filled};
    ghost use Rattle.back.specs.Gone.{Due, Stepped, Left, Gone};

    // the row of the step at i
    fn row_at(&self, i: usize) -> Row
        requires { StepAt self.now i }
        ensures { RowAt self.now i result }
    {
        let table = self.table;
        table.row(instance::number_in(&table.book, self.list, i))
    }

    // How many numbers the derivation has: over the trace's steps, for each relation those of the derivation of its present fact.
    // The same walk keeps the start of every 512th step, and every other number of the marks is as it was.
    pub fn measure(&self, relation: usize, marks: &mut [u32; 1024]) -> Measured
        requires { relation < 16 }
        ensures { Measures (book_of self.now) flags self.now.size self.now.list.now relation marks.old marks.new result }
    {
        let mut counts = [0usize; 16];
        let mut i = self.size;
        let mut k = 0;
        // steps differ in length, and an iterator over them would be longer than this
        while i < self.list.len() {
            keep(marks, k, i);
            let row = self.row_at(i);
            let n = 1 + row.variables as usize;
            counts[row.head.relation as usize] = body_count(&counts, body_relation(row)) + n;
            i += n + self.size;
            k += 1;
        }
        Measured {
            numbers: counts[relation],
            marks: k.div_ceil(512),
        }
    }

    // how many steps begin from `from` on, up to 512, and their starts
    fn fill(&self, from: usize, block: &mut [u32; 512]) -> usize
        requires { StepsFrom self.now from }
        ensures { Filled (book_of self.now) self.now.size self.now.list.now from block.new result }
    {
        let mut i = from;
        for (n, start) in block.iter_mut().enumerate() {
            if self.list.len() <= i {
                return n;
            }
            *start = i as u32;
            i = steps::after(self.table, self.list, self.size, i);
        }
        512
    }

    // the step at i, where `w` is wanted
    fn step_back(&self, i: usize, w: Wanted, room: &mut [i32]) -> Wanted
        requires here { StepAt self.now i }
        requires due { Due (book_of self.now) self.now.list.now i w room.old }
        ensures { Stepped (book_of self.now) self.now.list.now i w room.old result room.new }
    {
        let row = self.row_at(i);
        let Some(wanted) = w.relation else {
            return w;
        };
        if row.head.relation as usize == wanted {
            let n = 1 + row.variables as usize;
            let at = write_step(self.list, i, n, w.at, room);
            return Wanted {
                relation: body_relation(row),
                at,
            };
        }
        w
    }

    // the steps of block m, from the last to the first
    fn block_back(&self, marks: &[u32; 1024], m: usize, wanted: Wanted, room: &mut [i32]) -> Wanted
        requires m_bound { (m < 1024) × (get_or marks.now m 0 ≡ start (book_of self.now) self.now.size self.now.list.now self.now.size (m * 512)) }
        requires left { Left (book_of self.now) flags self.now.list.now (m * 512 + 512) wanted room.old }
        ensures { Gone (book_of self.now) flags self.now.list.now (m * 512 + 512) wanted room.old (m * 512) result room.new }
    {
        let mut block = [0u32; 512];
        let n = self.fill(marks[m] as usize, &mut block);
        let mut w = wanted;
        for start in block[..n].iter().rev() {
            w = self.step_back(*start as usize, w, room);
        }
        w
    }

    // Writes the derivation to the front of the room.
    pub fn write(&self, relation: usize, marks: &[u32; 1024], measured: Measured, room: &mut [i32])
        requires marked { Marked (book_of self.now) self.now.size self.now.list.now marks.now measured.marks }
        requires numbers_value { measured.numbers ≡ length (as_derivation (book_of self.now) flags relation self.now.list.now) }
        requires fits { measured.numbers ≤ length room.old }
        ensures { room.new ≡ as_derivation (book_of self.now) flags relation self.now.list.now ++ drop measured.numbers room.old }
    {
        let mut w = Wanted {
            relation: Some(relation),
            at: measured.numbers,
        };
        for m in (0..measured.marks).rev() {
            w = self.block_back(marks, m, w, room);
        }
    }
}
