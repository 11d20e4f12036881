// The clause book: its trailer, arities, records and index, read to the byte.
#![tactic(auto)]

ghost use Rattle.std.specs.Prelude.{◌≡◌, ◌+◌, ◌*◌, ◌≤◌, ◌<◌, length, get_or, Ok};
ghost use Rattle.book.specs.Read.{top_arity, arity_at, arities_at, record_at, clauses_at, headed, sized, trailer, read, entry_at};
ghost use Rattle.book.specs.Span.{absent, span_at, span_of};
ghost use Rattle.book.specs.Lent.{lent, handed};
ghost use Rattle.whole.specs.Bytes.{u16_at};
ghost use Rattle.book.specs.Answer.{Answers};
ghost use Rattle.book.specs.OnBook.{refused_by};
ghost use Rattle.book.specs.Joined.{Held};
ghost use Rattle.book.specs.Meaning.{book_in};
ghost use Rattle.book.specs.Windows.{Windowed};
ghost use Rattle.meaning.specs.Book.{none_such, place_window, variable_window};
ghost use Rattle.book.specs.Laid.{past_arguments, record_of, Room};

mod held;

use cursor::Cursor;
pub use held::Book;
use reply::{Refusal, refuse};

// What the trailer says: the window, where the index starts, how many clauses and relations there are, and the query relation.
#[derive(Clone, Copy)]
pub struct Header {
    pub lo: i32,
    pub hi: i32,
    pub start: usize,
    pub count: usize,
    pub relations: u8,
    pub query: u8,
}

// The least and the greatest value that a place or a variable may have.
#[derive(Clone, Copy)]
pub struct Window {
    pub lo: i32,
    pub hi: i32,
}

// A part of a book: from byte `start` up to, and without, byte `end`.
#[derive(Clone, Copy)]
pub struct Span {
    pub start: usize,
    pub end: usize,
}

impl Header {
    // the trailer's rules; one and zero are its last two bytes
    fn judged(self, len: usize, one: u8, zero: u8) -> Result<Header, Refusal>
        requires long_enough { 16 ≤ len }
        requires count_bound { self.start + self.count * 2 + 16 < 18446744073709551616 }
        ensures { result ≡ headed self len one zero }
    {
        if self.hi < self.lo {
            return refuse(2, len - 16);
        }
        self.measured(len, one, zero)
    }

    // the rules but for the window
    #[tactic(auto, unfolding(crate::specs::Read::sized, cursor::specs::Steps::pick))]
    fn measured(self, len: usize, one: u8, zero: u8) -> Result<Header, Refusal>
        requires long_enough { 16 ≤ len }
        requires count_bound { self.start + self.count * 2 + 16 < 18446744073709551616 }
        ensures { result ≡ sized self len one zero }
    {
        let bad = refuse(2, len - 16);
        if self.relations < 1 {
            return bad;
        }
        if 16 < self.relations {
            return bad;
        }
        if self.start < (self.relations as usize) {
            return bad;
        }
        if 64 < self.count {
            return bad;
        }
        if self.relations <= self.query {
            return bad;
        }
        if one != 1 {
            return bad;
        }
        if zero != 0 {
            return bad;
        }
        if self.start + self.count * 2 + 16 != len {
            return bad;
        }
        Ok(self)
    }
}

// the two bytes at `at` as a place or a count
fn short_at(book: &[u8], at: usize) -> usize
    requires { at + 2 ≤ length book.now }
    ensures { (result ≡ u16_at book.now at) × (result < 65536) }
{
    whole::u16_at(book, at) as usize
}

// the header, by the trailer's rules alone
#[tactic(auto, unfolding(crate::specs::Read::trailer, cursor::specs::Steps::pick, cursor::specs::Steps::value_then, reply::specs::Then::go_on))]
fn trailer_of(book: &[u8]) -> Result<Header, Refusal>
    ensures { result ≡ trailer book.now }
{
    let len = book.len();
    if len < 16 {
        return refuse(1, 0);
    }
    if 60000 < len {
        return refuse(1, 0);
    }
    let t = len - 16;
    let h = Header {
        lo: whole::int_at(book, t),
        hi: whole::int_at(book, t + 4),
        start: short_at(book, t + 8),
        count: short_at(book, t + 10),
        relations: book[t + 12],
        query: book[t + 13],
    };
    h.judged(len, book[t + 14], book[t + 15])
}

// the largest arity that relation i may have, where q is the query
fn most(i: usize, q: usize) -> u8
    ensures { result ≡ top_arity q i }
{
    if i == q { 0 } else { 8 }
}

// one arity
#[tactic(auto, unfolding(crate::specs::Read::arity_at, cursor::specs::Steps::pick, cursor::specs::Steps::value_then, reply::specs::Then::go_on))]
fn arity(c: Cursor, s: &[u8], q: usize) -> Result<Cursor, Refusal>
    ensures { result ≡ arity_at s.now q c }
{
    let (a, next) = c.byte(s)?;
    if a <= most(c.at, q) {
        Ok(next)
    } else {
        refuse(3, c.at)
    }
}

// count arities
fn arities(c: Cursor, s: &[u8], q: usize, count: u8) -> Result<Cursor, Refusal>
    ensures { result ≡ arities_at count s.now q c }
{
    let mut here = c;
    for _ in 0..count {
        here = arity(here, s, q)?;
    }
    Ok(here)
}

// the record whose index entry is at p, read where the cursor stands
#[tactic(auto, unfolding(crate::specs::Read::record_at, cursor::specs::Steps::pick, cursor::specs::Steps::value_then, reply::specs::Then::go_on))]
fn record_at(c: Cursor, book: &[u8], start: usize, n: u8, p: usize) -> Result<Cursor, Refusal>
    requires n_le_start { n ≤ start }
    requires start_in_bounds { start ≤ length book.now }
    requires p_in_bounds { p + 2 ≤ length book.now }
    ensures { result ≡ record_at book.now start n p c }
{
    if c.at == short_at(book, p) {
        let here = Cursor { at: c.at, left: 0 };
        let (_, next) = here.clause(&book[..start], n)?;
        Ok(next)
    } else {
        refuse(4, p)
    }
}

// count records, the first one's index entry at p; then the index
fn clauses(
    c: Cursor,
    book: &[u8],
    start: usize,
    n: u8,
    p: usize,
    count: usize,
) -> Result<Cursor, Refusal>
    requires n_le_start { n ≤ start }
    requires start_in_bounds { start ≤ length book.now }
    requires count_in_bounds { p + count * 2 ≤ length book.now }
    ensures { result ≡ clauses_at count book.now start n p c }
{
    let mut here = c;
    for k in 0..count {
        here = record_at(here, book, start, n, p + k * 2)?;
    }
    if here.at == start {
        Ok(here)
    } else {
        refuse(4, here.at)
    }
}

// Reads a book: the answer for any bytes.
pub fn read_book(book: &[u8]) -> Result<Header, Refusal>
    ensures { Answers book.now result }
{
    let h = trailer_of(book)?;
    let start = h.start;
    let first = Cursor { at: 0, left: 0 };
    let c = arities(first, &book[..start], h.query as usize, h.relations)?;
    clauses(c, book, start, h.relations, start, h.count)?;
    Ok(h)
}

// A reading as a call's answer: a refused book's own refusal.
#[tactic(auto, unfolding(crate::specs::OnBook::refused_by))]
pub fn refused_by(b: Result<Header, Refusal>) -> reply::Answer
    ensures { result ≡ refused_by b }
{
    b?;
    Ok(0)
}

// where the index says that record k starts
fn entry(book: &[u8], start: usize, k: usize) -> Cursor
    requires { start + k * 2 + 2 ≤ length book.now }
    ensures { result ≡ entry_at book.now start k }
{
    Cursor {
        at: short_at(book, start + k * 2),
        left: 0,
    }
}

// no part of the book: 0 and 0 and no Option, since C gets a part as its start and length
fn nowhere() -> Span
    ensures { result ≡ absent }
{
    Span { start: 0, end: 0 }
}

// where the constraint of the record at c stands
#[tactic(auto, unfolding(crate::specs::Span::span_at, reply::specs::Then::go_on))]
fn span_at(book: &[u8], c: Cursor, start: usize, n: u8) -> Span
    requires n_le_start { n ≤ start }
    requires start_in_bounds { start ≤ length book.now }
    ensures { result ≡ span_at book.now start n c }
{
    match c.clause(&book[..start], n) {
        Ok((l, past)) => Span {
            start: l.rule,
            end: past.at,
        },
        Err(_) => nowhere(),
    }
}

// Where the constraint of clause k stands; 0 and 0 for a refused book or an absent clause.
#[tactic(auto, unfolding(crate::specs::Span::span_of, cursor::specs::Steps::pick, cursor::specs::Steps::value_then, reply::specs::Then::go_on))]
pub fn constraint_span(book: &[u8], k: usize) -> Span
    ensures { result ≡ span_of book.now k }
{
    let Ok(h) = read_book(book) else {
        return nowhere();
    };
    let start = h.start;
    if k < h.count {
        span_at(book, entry(book, start, k), start, h.relations)
    } else {
        nowhere()
    }
}

// The constraint of clause k, as the very part of the book that holds it; an empty part for a refused book or an absent clause.
pub fn constraint_of(book: &[u8], k: usize) -> &[u8]
    ensures { lent result ≡ handed (lent book.entry) k }
{
    let p = constraint_span(book, k);
    &book[p.start..p.end]
}

// the place past the arguments of the relation r, whose number stands at p; the format's byte 255 has none, as `past_arguments` says
fn past(book: &[u8], p: usize, r: u8) -> usize
    requires p_in_bounds { p < length book.now }
    requires r_in_bounds { (r ≡ 255 → ⊥) → r < length book.now }
    ensures { result ≡ past_arguments book.now p r }
{
    if r == 255 {
        p + 1
    } else {
        p + 1 + book[r as usize] as usize
    }
}

// the record that begins at p, with nothing judged again
fn laid(book: &[u8], p: usize) -> cursor::Clause
    requires { Room book.now p }
    ensures { result ≡ record_of book.now p }
{
    let body = book[p + 1];
    let seat = past(book, p + 1, body);
    let head = book[seat];
    cursor::Clause {
        variables: book[p],
        body,
        body_at: p + 1,
        head,
        head_at: seat,
        rule: past(book, seat, head),
    }
}

// The record of clause k of a book that was accepted with the header h: it is that clause of the meaning's book.
pub fn record(book: &[u8], h: Header, k: usize) -> cursor::Clause
    requires accepted { read book.now ≡ Ok h }
    requires k_lt_count { k < h.count }
    ensures { Held book.now h k result }
{
    let c = entry(book, h.start, k);
    laid(book, c.at)
}

// ---- what an accepted book says of its relations and variables; the windows are those of any header

// How many places relation r has.
pub fn arity_of(book: &[u8], h: Header, r: usize) -> usize
    requires accepted { read book.now ≡ Ok h }
    requires r_lt_relations { r < h.relations }
    ensures { (result ≡ get_or (book_in book.now h).arities r 0) × (result ≤ 8) }
{
    book[r] as usize
}

// The window of place i of relation r.
pub fn place_window(book: &[u8], h: Header, r: usize, i: usize) -> Window
    ensures { Windowed (place_window (book_in book.now h) r i) result }
{
    Window { lo: h.lo, hi: h.hi }
}

// The window of variable i of clause k.
pub fn variable_window(book: &[u8], h: Header, k: usize, i: usize) -> Window
    ensures { Windowed (variable_window (book_in book.now h) (get_or (book_in book.now h).clauses k none_such) i) result }
{
    Window { lo: h.lo, hi: h.hi }
}
