// The model check: the bytes of a model against the bytes of a clause book.
#![tactic(auto)]

ghost use Rattle.std.specs.Prelude.{◌≡◌, ◌≤◌};
ghost use Rattle.reply.specs.Answer.{says};
ghost use Rattle.book.specs.Held.{meant};
ghost use Rattle.models.specs.Assignments.{count};
ghost use Rattle.models.specs.Walk.{total};
ghost use Rattle.models.specs.Answer.{plain};
ghost use Rattle.model.specs.Reply.{told, said, Replies, Given, windows_of, clause_answer, walk_answer, weighed_answer};

use book::Book;
use odometer::Odometer;
use parts::{Model, Task};
use reply::{Answer, Refusal, refuse};

// What the check replies: its answer, how many assignments were examined, and of a broken instance its clause and values.
#[derive(Clone, Copy)]
pub struct Reply {
    pub answer: Answer,
    pub count: usize,
    pub clause: usize,
    pub values: [i32; 16],
}

// A broken instance: how many assignments were examined up to it, its clause and its values.
#[derive(Clone, Copy)]
struct Broken {
    count: usize,
    clause: usize,
    values: [i32; 16],
}

// any reply but 25: clause and values are 0
fn simply(answer: Answer, count: usize) -> Reply
    ensures { told result ≡ plain (says answer) count }
{
    Reply {
        answer,
        count,
        clause: 0,
        values: [0; 16],
    }
}

// each assignment of the task's clause in order, where `before` assignments were examined before them: how many were in all, or the first broken one
#[tactic(auto, using(odometer::proofs::Laws::capped_small))]
fn try_clause(t: &Task, before: usize) -> Result<usize, Broken>
    requires { (before ≤ 1000000) × (count (windows_of t.now) t.now.clause.variables ≤ 1000000) }
    ensures { said result ≡ clause_answer t.now.model t.now.number before }
{
    let clause = Odometer {
        book: t.model.book,
        clause: t.number,
        many: t.clause.variables as usize,
    };
    let count = clause.count();
    let mut values = clause.first();
    for i in 0..count {
        if t.breaks(&values) {
            return Err(Broken {
                count: before + i + 1,
                clause: t.number,
                values,
            });
        }
        clause.advance(&mut values);
    }
    Ok(before + count)
}

// all clauses in order
fn try_all(m: &Model) -> Result<usize, Broken>
    requires { total (meant m.now.book) ≤ 1000000 }
    ensures { said result ≡ walk_answer m.now }
{
    let mut seen = 0;
    for k in 0..m.book.header.count {
        seen = try_clause(&m.task(k), seen)?;
    }
    Ok(seen)
}

// the query's constraint, the number of assignments, and all clauses
fn weigh(m: &Model) -> Reply
    ensures { told result ≡ weighed_answer m.now }
{
    let at = m.starts[m.book.header.query as usize];
    if truth::walk(m.bytes, at, 0, &[0; 16], 0) {
        return simply(refuse(23, at), 0);
    }
    if 1000000 < odometer::total_of(&m.book) {
        return simply(refuse(24, 0), 0);
    }
    match try_all(m) {
        Ok(seen) => simply(Ok(0), seen),
        Err(b) => {
            let values = b.values;
            Reply {
                answer: refuse(25, b.count),
                count: b.count,
                clause: b.clause,
                values,
            }
        }
    }
}

// the book and the model of it that these bytes hold
fn read<'a>(book: &'a [u8], model: &'a [u8]) -> Result<Model<'a>, Refusal>
    ensures { Given book.now model.now result }
{
    Model::read(Book::open(book)?, model)
}

// Checks a model: the reply for any book and model bytes.
pub fn check(book: &[u8], model: &[u8]) -> Reply
    ensures { Replies book.now model.now result }
{
    match read(book, model) {
        Ok(m) => weigh(&m),
        Err(r) => simply(Err(r), 0),
    }
}
