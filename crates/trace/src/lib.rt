// The trace check: whether a list of numbers is a trace that reaches a goal in the system of a clause book.
#![tactic(auto)]

ghost use Rattle.std.specs.Prelude.{◌≡◌, ◌<◌, length, get_or};
ghost use Rattle.meaning.specs.State.{flags};
ghost use Rattle.lists.specs.Trace.{check_trace};
ghost use Rattle.book.specs.Held.{meant};
ghost use Rattle.reply.specs.Answer.{told, Answers};
ghost use Rattle.state.specs.State.{Sized};
ghost use Rattle.trace.specs.Answer.{answer};

use book::Book;
use reply::{Answer, refuse};
use state::State;
use table::Table;

// A list that is judged, with the table of its book, how many numbers a state has, and the goal, a relation with its values.
#[derive(Clone, Copy)]
struct Claim<'a> {
    table: &'a Table<'a>,
    list: &'a [i32],
    size: usize,
    relation: usize,
    values: &'a [i32],
    ghost sized: { Sized (meant table.now.book) flags size },
    ghost relation_lt_relations: { relation < table.now.book.header.relations },
    ghost values_len: { length values.now ≡ get_or (meant table.now.book).arities relation 0 },
}

impl<'a> Claim<'a> {
    ghost use Rattle.std.specs.Prelude.{◌+◌, ◌≤◌, drop};
    ghost use Rattle.lists.specs.Derivation.{goal};
    ghost use Rattle.lists.specs.Trace.{judge_first, first_of};
    ghost use Rattle.lists.specs.Due.{walk_due};
    ghost use Rattle.reply.specs.Answer.{giving};
    ghost use Rattle.instance.specs.Values.{number_in};
    ghost use Rattle.state.specs.State.{held};
    ghost use Rattle.trace.specs.Step.{enabled};

    // 13, 18, 14: the first state
    fn judged_first(&self) -> Answer
        ensures { result ≡ told (judge_first (meant self.now.table.now.book) flags self.now.list.now) }
    {
        if self.list.len() < self.size {
            return refuse(13, 0);
        }
        let n = self.table.book.relations();
        let set = state::flags_differ(self.list, 0, &[false; 16], n);
        if set < n {
            return refuse(18, set);
        }
        let out = state::places_out(&self.table.book, self.list, n);
        if out < self.size {
            refuse(14, out)
        } else {
            Ok(0)
        }
    }

    // 12 to 16: the clause of the step that begins at i in this state
    fn step_at(&self, i: usize, state: &State) -> Answer
        requires { i < length self.now.list.now }
        ensures { result ≡ giving (enabled (meant self.now.table.now.book) flags (number_in self.now.table.now.book.bytes.now self.now.table.now.book.header self.now.list.now i) (drop (i + 1) self.now.list.now) i (held (meant self.now.table.now.book) state.now)) (number_in self.now.table.now.book.bytes.now self.now.table.now.book.header self.now.list.now i) }
    {
        let k = instance::instance_at(self.table, self.list, i, self.size)?;
        if state.meets(self.table, k, self.list, i + 1) {
            Ok(k)
        } else {
            refuse(16, i)
        }
    }

    // the steps of the list from its first state on, then 17, the goal; one row is replaced at each step
    fn walk(&self) -> Answer
        requires { self.now.size ≤ length self.now.list.now }
        ensures { result ≡ told (walk_due (meant self.now.table.now.book) flags (goal self.now.relation self.now.values.now) self.now.list.now self.now.size (first_of (meant self.now.table.now.book) flags self.now.list.now)) }
    {
        let book = &self.table.book;
        let mut state = State::first(book, self.list, book.relations());
        let mut i = self.size;
        // steps differ in length, and an iterator over them would be longer than this
        while i < self.list.len() {
            let k = self.step_at(i, &state)?;
            let row = self.table.row(k);
            state.put(self.table, k, self.list, i + 1);
            let at = i + 1 + row.variables as usize;
            let d = state.differs(book, self.list, at);
            if d < at + self.size {
                return refuse(19, d);
            }
            i = at + self.size;
        }
        if state.holds(book, self.relation, self.values) {
            Ok(0)
        } else {
            refuse(17, self.list.len())
        }
    }
}

// 10 to 19: whether a list is a trace that reaches the goal in the system of a book that was read
pub fn check_in(table: &Table, list: &[i32], relation: usize, values: &[i32]) -> Answer
    ensures { result ≡ told (check_trace (meant table.now.book) flags relation values.now list.now) }
{
    asked::judged_goal(&table.book, relation, values)?;
    asked::judged_length(list)?;
    let claim = Claim {
        table,
        list,
        size: state::size(&table.book),
        relation,
        values,
    };
    claim.judged_first()?;
    claim.walk()
}

// Whether a list is a trace that reaches the goal, a relation and its values, in the system of the book that the bytes hold: the answer for any input.
pub fn check(book: &[u8], list: &[i32], relation: usize, values: &[i32]) -> Answer
    ensures { Answers (answer book.now list.now relation values.now) result }
{
    let book = Book::open(book)?;
    check_in(&Table::of(book), list, relation, values)
}
