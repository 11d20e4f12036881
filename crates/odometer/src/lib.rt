// The assignments of a clause's variables: how many there are, the first, and from one to the next in place.
#![tactic(auto)]

ghost use Rattle.std.specs.Prelude.{◌≡◌, ◌≤◌, ◌≤ℤ◌};
ghost use Rattle.book.specs.Held.{meant};
ghost use Rattle.book.specs.Windows.{window_of};
ghost use Rattle.models.specs.Assignments.{width};
ghost use Rattle.models.specs.Cap.{cap};
ghost use Rattle.models.specs.Walk.{total};

use book::{Book, Window};

// The first `many` variables of a clause, whose assignments are counted through.
#[derive(Clone, Copy)]
pub struct Odometer<'a> {
    pub book: Book<'a>,
    pub clause: usize,
    pub many: usize,
}

// how many values a window has
#[tactic(auto, using(crate::proofs::Signed::widths))]
fn width_of(w: Window) -> usize
    requires { w.lo ≤ℤ w.hi }
    ensures { (result ≡ width (window_of w)) × (result ≤ 4294967297) }
{
    (w.hi as i64 - w.lo as i64 + 1) as usize
}

// a count that stops at 1,000,001
#[tactic(auto, using(crate::proofs::Laws::capping))]
fn capped(n: usize) -> usize
    ensures { result ≡ cap n }
{
    n.min(1000001)
}

impl<'a> Odometer<'a> {
    ghost use Rattle.std.specs.Prelude.{◌≡◌, ◌≤◌, replicate, pos};
    ghost use Rattle.models.specs.Assignments.{count};
    ghost use Rattle.models.specs.Cap.{cap};
    ghost use Rattle.models.specs.Odometer.{lows, up};
    ghost use Rattle.odometer.specs.Variables.{windows};

    // How many assignments there are, or 1,000,001 where they are over a million.
    pub fn count(&self) -> usize
        ensures { result ≡ cap (count (windows self.now) self.now.many) }
    {
        let mut all = 1;
        for i in 0..self.many {
            all = capped(all * width_of(self.book.variable_window(self.clause, i)));
        }
        all
    }

    // The first assignment: each variable at its low end, the other slots 0.
    pub fn first(&self) -> [i32; 16]
        requires { self.now.many ≤ 16 }
        ensures { result ≡ lows (windows self.now) self.now.many (replicate 16 (pos 0)) }
    {
        let mut values = [0; 16];
        for i in 0..self.many {
            values[i] = self.book.variable_window(self.clause, i).lo;
        }
        values
    }

    // To the next assignment, in place: the last variable one up, or back to its low end and those before it up.
    pub fn advance(&self, values: &mut [i32; 16])
        requires { self.now.many ≤ 16 }
        ensures { values.new ≡ up (windows self.now) self.now.many values.old }
    {
        for i in (0..self.many).rev() {
            let w = self.book.variable_window(self.clause, i);
            if values[i] < w.hi {
                values[i] += 1;
                return;
            }
            values[i] = w.lo;
        }
    }
}

// How many assignments all clauses of a book have, or 1,000,001 where they are over a million.
#[tactic(auto, using(crate::proofs::Laws::capped_small))]
pub fn total_of(book: &Book) -> usize
    ensures { result ≡ cap (total (meant book.now)) }
{
    let mut all = 0;
    for k in 0..book.header.count {
        let clause = Odometer {
            book: *book,
            clause: k,
            many: book.record(k).variables as usize,
        };
        all = capped(all + clause.count());
    }
    all
}
