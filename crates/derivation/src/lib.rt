// The derivation check: whether a list of numbers is a derivation of a goal in a clause book.
#![tactic(auto)]

ghost use Rattle.std.specs.Prelude.{◌≡◌, length, get_or};
ghost use Rattle.reply.specs.Answer.{told, Answers};
ghost use Rattle.lists.specs.Derivation.{check_derivation};
ghost use Rattle.lists.specs.Convert.{derivation_steps};
ghost use Rattle.book.specs.Held.{meant};
ghost use Rattle.derivation.specs.Answer.{counted, answer};

use book::Book;
use reply::{Answer, Refusal, refuse};
use table::Table;

// A step of a list: its clause, and where its values stand.
#[derive(Clone, Copy)]
pub struct Step {
    clause: usize,
    since: usize,
}

// A list that is judged, with the table of its book and the goal, a relation with its values.
#[derive(Clone, Copy)]
struct Claim<'a> {
    table: &'a Table<'a>,
    list: &'a [i32],
    relation: usize,
    values: &'a [i32],
    ghost values_len: { length values.now ≡ get_or (meant table.now.book).arities relation 0 },
}

impl<'a> Claim<'a> {
    ghost use Rattle.std.specs.Prelude.{◌+◌, ◌<◌, drop, IfSome};
    ghost use Rattle.std.proofs.Math.Option.{some};
    ghost use Rattle.meaning.specs.Book.{body};
    ghost use Rattle.lists.specs.Compare.{same};
    ghost use Rattle.lists.specs.Derivation.{judge_step, check as check_list, goal};
    ghost use Rattle.instance.specs.Values.{number_in};
    ghost use Rattle.reply.specs.Answer.{giving};
    ghost use Rattle.derivation.specs.Step.{step_of, step_in, fact_after, Stands};

    // whether the body of a step is the head of the one before it, if there is one
    fn met(&self, step: Step, last: Option<Step>) -> bool
        requires step { Stands (meant self.now.table.now.book) self.now.list.now step }
        requires last { IfSome last (λ x. Stands (meant self.now.table.now.book) self.now.list.now x) }
        ensures { result ≡ same (body (meant self.now.table.now.book) (step_of (meant self.now.table.now.book) self.now.list.now step)) (fact_after (meant self.now.table.now.book) self.now.list.now last) }
    {
        let table = self.table;
        let row = table.row(step.clause);
        let (body, before) = match (row.body, last) {
            (None, None) => return true,
            (None, Some(_)) => return false,
            (Some(_), None) => return false,
            (Some(body), Some(before)) => (body, before),
        };
        let earlier = table.row(before.clause).head;
        if body.relation != earlier.relation {
            return false;
        }
        instance::same_values(
            table.book.bytes,
            self.list,
            body.at as usize,
            step.since,
            earlier.at as usize,
            before.since,
            body.many as usize,
        )
    }

    // 12 to 16: the step that begins at i, after the step `last`, if there is one
    fn step_at(&self, i: usize, last: Option<Step>) -> Result<Step, Refusal>
        requires i_in_bounds { i < length self.now.list.now }
        requires last { IfSome last (λ x. Stands (meant self.now.table.now.book) self.now.list.now x) }
        ensures { result ≡ giving (judge_step (meant self.now.table.now.book) (number_in self.now.table.now.book.bytes.now self.now.table.now.book.header self.now.list.now i) (drop (i + 1) self.now.list.now) i (fact_after (meant self.now.table.now.book) self.now.list.now last)) (step_in self.now.table.now.book.bytes.now self.now.table.now.book.header self.now.list.now i) }
    {
        let clause = instance::instance_at(self.table, self.list, i, 0)?;
        let step = Step {
            clause,
            since: i + 1,
        };
        if self.met(step, last) {
            Ok(step)
        } else {
            refuse(16, i)
        }
    }

    // whether the head of the last step is the goal
    fn ended(&self, last: Option<Step>) -> bool
        requires last { IfSome last (λ x. Stands (meant self.now.table.now.book) self.now.list.now x) }
        ensures { result ≡ same (fact_after (meant self.now.table.now.book) self.now.list.now last) (some (goal self.now.relation self.now.values.now)) }
    {
        let table = self.table;
        let Some(step) = last else {
            return false;
        };
        let head = table.row(step.clause).head;
        if head.relation as usize != self.relation {
            return false;
        }
        instance::values_are(
            table.book.bytes,
            self.list,
            head.at as usize,
            step.since,
            self.values.len(),
            self.values,
        )
    }

    // the steps of the list, then the goal; done with how many steps there are
    fn walk(&self) -> Answer
        ensures { result ≡ told (counted (check_list (meant self.now.table.now.book) (goal self.now.relation self.now.values.now) self.now.list.now) (length (derivation_steps (meant self.now.table.now.book) self.now.list.now))) }
    {
        let table = self.table;
        let mut i = 0;
        let mut last = None;
        let mut steps = 0;
        // steps differ in length, and an iterator over them would be longer than this
        while i < self.list.len() {
            let step = self.step_at(i, last)?;
            i = step.since + table.row(step.clause).variables as usize;
            last = Some(step);
            steps += 1;
        }
        if self.ended(last) {
            Ok(steps)
        } else {
            refuse(17, self.list.len())
        }
    }
}

// 10 to 17: whether a list is a derivation of the goal in a book that was read; done with how many steps it has
pub fn check_in(table: &Table, list: &[i32], relation: usize, values: &[i32]) -> Answer
    ensures { result ≡ told (counted (check_derivation (meant table.now.book) relation values.now list.now) (length (derivation_steps (meant table.now.book) list.now))) }
{
    asked::judged_goal(&table.book, relation, values)?;
    asked::judged_length(list)?;
    let claim = Claim {
        table,
        list,
        relation,
        values,
    };
    claim.walk()
}

// Whether a list is a derivation of the goal, a relation and its values, in the book that the bytes hold: the answer for any input.
pub fn check(book: &[u8], list: &[i32], relation: usize, values: &[i32]) -> Answer
    ensures { Answers (answer book.now list.now relation values.now) result }
{
    let book = Book::open(book)?;
    check_in(&Table::of(book), list, relation, values)?;
    Ok(0)
}
