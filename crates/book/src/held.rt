// A book that was read, by what it holds: its records, and what it says of its relations and variables.

ghost use Rattle.std.specs.Prelude.{◌≡◌, Ok};
ghost use Rattle.book.specs.Read.{read};

use crate::{Header, Window, arity_of, place_window, read_book, record, variable_window};
use reply::Refusal;

// A book's bytes, and the header that they were accepted with.
#[derive(Clone, Copy)]
pub struct Book<'a> {
    pub bytes: &'a [u8],
    pub header: Header,
    pub ghost accepted: { read bytes.now ≡ Ok header },
}

impl<'a> Book<'a> {
    ghost use Rattle.std.specs.Prelude.{◌<◌, ◌≤◌, get_or};
    ghost use Rattle.book.specs.Joined.{Held};
    ghost use Rattle.book.specs.Windows.{Windowed};
    ghost use Rattle.meaning.specs.Book.{none_such, place_window, variable_window};
    ghost use Rattle.book.specs.Held.{meant, Opened};

    // Reads a book.
    pub fn open(bytes: &'a [u8]) -> Result<Book<'a>, Refusal>
        ensures { Opened bytes.now result }
    {
        let header = read_book(bytes)?;
        Ok(Book { bytes, header })
    }

    // How many relations it has.
    pub fn relations(&self) -> usize
        ensures { result ≡ self.now.header.relations }
    {
        self.header.relations as usize
    }

    // The record of clause k: it is that clause of the meaning's book.
    pub fn record(&self, k: usize) -> cursor::Clause
        requires { k < self.now.header.count }
        ensures { Held self.now.bytes.now self.now.header k result }
    {
        record(self.bytes, self.header, k)
    }

    // How many places relation r has.
    pub fn arity(&self, r: usize) -> usize
        requires { r < self.now.header.relations }
        ensures { (result ≡ get_or (meant self.now).arities r 0) × (result ≤ 8) }
    {
        arity_of(self.bytes, self.header, r)
    }

    // The window of place i of relation r.
    pub fn place_window(&self, r: usize, i: usize) -> Window
        ensures { Windowed (place_window (meant self.now) r i) result }
    {
        place_window(self.bytes, self.header, r, i)
    }

    // The window of variable i of clause k.
    pub fn variable_window(&self, k: usize, i: usize) -> Window
        ensures { Windowed (variable_window (meant self.now) (get_or (meant self.now).clauses k none_such) i) result }
    {
        variable_window(self.bytes, self.header, k, i)
    }
}
