// A model's parts: where its constraints stand, and one assignment of a clause against them.
#![tactic(auto)]

ghost use Rattle.std.specs.Prelude.{◌≡◌, ◌+◌, ◌≤◌, length, take, Ok};
ghost use Rattle.cursor.specs.Sound.{Arguments};
ghost use Rattle.book.specs.Held.{meant};
ghost use Rattle.models.specs.Read.{in_model, rule_at};
ghost use Rattle.parts.specs.Task.{scan, places_of, Taken};

use book::Book;
use cursor::{Clause, Cursor};
use reply::{Refusal, refuse};

// A clause's head or body in a model: where its relation's number stands in the book, how many places the relation has, and where its constraint starts in the model.
#[derive(Clone, Copy)]
pub struct Half {
    pub seat: usize,
    pub places: u8,
    pub rule: usize,
}

// A model that was read: its book, its bytes, and where each relation's constraint starts in them.
#[derive(Clone, Copy)]
pub struct Model<'a> {
    pub book: Book<'a>,
    pub bytes: &'a [u8],
    pub starts: [usize; 16],
    pub ghost read: { scan bytes.now (meant book).arities ≡ Ok starts },
}

// A clause of a model's book, and its body and head in the model.
#[derive(Clone, Copy)]
pub struct Task<'a> {
    pub model: Model<'a>,
    pub number: usize,
    pub clause: Clause,
    pub body: Option<Half>,
    pub head: Half,
    pub ghost taken: { Taken model.book.bytes.now model.book.header model.starts number clause body head },
}

// ---- reading the model

// a constraint's refusal, as it is in a model
#[tactic(auto, unfolding(models::specs::Read::in_model, models::specs::Read::number_in, cursor::specs::Steps::pick))]
fn in_model(r: Refusal) -> Refusal
    ensures { result ≡ in_model r }
{
    Refusal {
        number: if r.number == 7 { 21 } else { 22 },
        place: r.place,
    }
}

// one constraint over n variables
#[tactic(auto, unfolding(models::specs::Read::rule_at, reply::specs::Then::go_on))]
fn rule(c: Cursor, model: &[u8], n: u8) -> Result<Cursor, Refusal>
    ensures { result ≡ rule_at model.now n c }
{
    let fresh = Cursor { at: c.at, left: 64 };
    fresh.constraint(model, n, 16).map_err(in_model)
}

// where each relation's constraint starts in the bytes of a model
fn starts_of(model: &[u8], book: &Book) -> Result<[usize; 16], Refusal>
    ensures { result ≡ scan model.now (meant book.now).arities }
{
    let mut starts = [0; 16];
    let mut c = Cursor { at: 0, left: 0 };
    for k in 0..book.relations() {
        starts[k] = c.at;
        c = rule(c, model, book.arity(k) as u8)?;
    }
    if c.at == model.len() {
        Ok(starts)
    } else {
        refuse(22, c.at)
    }
}

// the values of n arguments that stand after the seat
fn gather(s: &[u8], seat: usize, n: u8, values: &[i32]) -> [i32; 8]
    requires { (n ≤ 8) × Arguments s.now (length values.now) (seat + 1) n }
    ensures { (length result ≡ 8) × (take n result ≡ places_of s.now seat n values.now) }
{
    let mut places = [0; 8];
    for k in 0..n as usize {
        places[k] = values[s[seat + 1 + k] as usize];
    }
    places
}

impl<'a> Model<'a> {
    ghost use Rattle.std.specs.Prelude.{◌≡◌, ◌<◌, length};
    ghost use Rattle.parts.specs.Task.{Side, SideBody, true_in, met_in, half_of, body_of};
    ghost use Rattle.parts.specs.Opened.{Opened};

    // Reads the whole model of a book.
    pub fn read(book: Book<'a>, bytes: &'a [u8]) -> Result<Model<'a>, Refusal>
        ensures { Opened book.entry bytes.now result }
    {
        let starts = starts_of(bytes, &book)?;
        Ok(Model {
            book,
            bytes,
            starts,
        })
    }

    // relation r, whose number stands at p
    #[tactic(auto, unfolding(crate::specs::Task::half_of))]
    fn half(&self, r: u8, p: usize) -> Half
        requires { r < self.now.book.header.relations }
        ensures { result ≡ half_of self.now.book.bytes.now self.now.book.header self.now.starts r p }
    {
        let i = r as usize;
        Half {
            seat: p,
            places: self.book.arity(i) as u8,
            rule: self.starts[i],
        }
    }

    // the same of a body, where the format's byte 255 is none
    #[tactic(auto, unfolding(crate::specs::Task::body_of, cursor::specs::Steps::pick))]
    fn body(&self, r: u8, p: usize) -> Option<Half>
        requires { (r ≡ 255 → ⊥) → r < self.now.book.header.relations }
        ensures { result ≡ body_of self.now.book.bytes.now self.now.book.header self.now.starts r p }
    {
        if r == 255 {
            return None;
        }
        Some(self.half(r, p))
    }

    // Clause k of the book, in the model.
    pub fn task(&self, k: usize) -> Task<'a>
        requires { k < self.now.book.header.count }
        ensures { (result.model ≡ self.now) × (result.number ≡ k) }
    {
        let clause = self.book.record(k);
        Task {
            model: *self,
            number: k,
            clause,
            body: self.body(clause.body, clause.body_at),
            head: self.half(clause.head, clause.head_at),
        }
    }

    // ---- one assignment

    // whether a relation's constraint is true of its arguments
    #[tactic(auto, unfolding(crate::specs::Task::true_in))]
    fn holds(&self, a: Half, values: &[i32]) -> bool
        requires { Side self.now.book.bytes.now (length values.now) self.now.bytes.now a }
        ensures { result ≡ true_in self.now.book.bytes.now self.now.bytes.now a values.now }
    {
        let places = gather(self.book.bytes, a.seat, a.places, values);
        truth::truth(self.bytes, a.rule, a.places, &places, 0)
    }

    // whether there is no body, or its relation's constraint is true
    #[tactic(auto, unfolding(crate::specs::Task::met_in))]
    fn met(&self, body: Option<Half>, values: &[i32]) -> bool
        requires { SideBody self.now.book.bytes.now (length values.now) self.now.bytes.now body }
        ensures { result ≡ met_in self.now.book.bytes.now self.now.bytes.now body values.now }
    {
        match body {
            None => true,
            Some(a) => self.holds(a, values),
        }
    }
}

impl<'a> Task<'a> {
    ghost use Rattle.std.specs.Prelude.{◌≡◌, ◌≤◌, length, take};
    ghost use Rattle.models.specs.Walk.{step, breaks};
    ghost use Rattle.parts.specs.Opened.{constraints};

    // Whether the assignment breaks the model: the clause's constraint is true, its body is met, and its head's is not true.
    pub fn breaks(&self, values: &[i32]) -> bool
        requires { self.now.clause.variables ≤ length values.now }
        ensures { result ≡ breaks (meant self.now.model.book) (constraints self.now.model) (step self.now.number (take self.now.clause.variables values.now)) }
    {
        let m = &self.model;
        truth::truth(
            m.book.bytes,
            self.clause.rule,
            self.clause.variables,
            values,
            0,
        ) && m.met(self.body, values)
            && !m.holds(self.head, values)
    }
}
