// The clauses of a book that was read as a table, made once a call: a row for each, in which a step finds what it needs of its clause.
#![tactic(auto)]

ghost use Rattle.std.specs.Prelude.{◌≡◌, ◌<◌};
ghost use Rattle.table.specs.Table.{seat_of, body_of, row_of, Fits, Tabled};
ghost use Rattle.table.specs.Single.{tabled-prop};

use book::Book;

// An atom of a clause: where its arguments begin in the book, its relation, and how many arguments there are.
#[derive(Clone, Copy)]
pub struct Seat {
    pub at: u16,
    pub relation: u8,
    pub many: u8,
}

// A clause: where its constraint begins in the book, how many variables it has, its head, and its body, if it has one.
#[derive(Clone, Copy)]
pub struct Row {
    pub rule: u16,
    pub variables: u8,
    pub head: Seat,
    pub body: Option<Seat>,
}

// A book that was read, with a row for each of its clauses.
#[derive(Clone, Copy)]
pub struct Table<'a> {
    pub book: Book<'a>,
    pub rows: [Row; 64],
    pub ghost tabled: { Tabled book.bytes.now book.header rows } by { tabled-prop book.bytes.now book.header rows },
}

impl Row {
    // no clause's
    const NONE: Row = Row {
        rule: 0,
        variables: 0,
        head: Seat {
            at: 0,
            relation: 0,
            many: 0,
        },
        body: None,
    };
}

// the seat of relation r, whose number stands at p
#[tactic(auto, unfolding(crate::specs::Table::seat_of))]
fn seat_of(book: &Book, r: u8, p: usize) -> Seat
    requires { (p < 60000) × (r < book.now.header.relations) }
    ensures { result ≡ seat_of book.now.bytes.now book.now.header r p }
{
    Seat {
        at: (p + 1) as u16,
        relation: r,
        many: book.arity(r as usize) as u8,
    }
}

// the same of a body, where the format's byte 255 is none
#[tactic(auto, unfolding(crate::specs::Table::body_of, cursor::specs::Steps::pick))]
fn body_of(book: &Book, r: u8, p: usize) -> Option<Seat>
    requires { (r ≡ 255 → ⊥) → (p < 60000) × (r < book.now.header.relations) }
    ensures { result ≡ body_of book.now.bytes.now book.now.header r p }
{
    if r == 255 {
        return None;
    }
    Some(seat_of(book, r, p))
}

// a clause's row
#[tactic(auto, unfolding(crate::specs::Table::row_of))]
fn row_of(book: &Book, c: cursor::Clause) -> Row
    requires { Fits book.now.header c }
    ensures { result ≡ row_of book.now.bytes.now book.now.header c }
{
    Row {
        rule: c.rule as u16,
        variables: c.variables,
        head: seat_of(book, c.head, c.head_at),
        body: body_of(book, c.body, c.body_at),
    }
}

impl<'a> Table<'a> {
    ghost use Rattle.std.specs.Prelude.{get_or};
    ghost use Rattle.table.specs.Table.{IsRow, no_row};

    // The table of a book.
    pub fn of(book: Book<'a>) -> Table<'a>
        ensures { result.book ≡ book.entry }
    {
        let mut rows = [Row::NONE; 64];
        for k in 0..book.header.count {
            rows[k] = row_of(&book, book.record(k));
        }
        Table { book, rows }
    }

    // The row of clause k.
    pub fn row(&self, k: usize) -> Row
        requires { k < self.now.book.header.count }
        ensures is { result ≡ get_or self.now.rows k no_row }
        ensures says { IsRow self.now.book.bytes.now self.now.book.header k result }
    {
        self.rows[k]
    }
}
