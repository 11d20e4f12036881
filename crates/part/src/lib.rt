// Printing the part of a clause in `trans`.
#![tactic(auto)]

ghost use Rattle.std.specs.Prelude.{◌≡◌, ◌⊎◌, ◌<◌, get_or};
ghost use Rattle.meaning.specs.Book.{none_such, variable_window};
ghost use Rattle.sexp.specs.Sexp.{each, over};
ghost use Rattle.put.specs.Shows.{Lists};
ghost use Rattle.book.specs.Held.{meant};
ghost use Rattle.script.specs.Lines as lines;
ghost use Rattle.term.specs.Name.{is_after};
ghost use Rattle.part.specs.Part.{Stands, atom_of, body_of};

use book::Book;
use put::Printer;
use term::{Name, When, constraint, limits, same};

// The limits of the v variables of clause k.
fn windows(out: &mut Printer, book: &Book, k: usize, v: usize)
    ensures { Lists out.old out.new (each v (lines.input_limits (variable_window (meant book.now) (get_or (meant book.now).clauses k none_such)) k)) }
{
    for i in 0..v {
        limits(out, Name::Input(k, i), book.variable_window(k, i));
    }
}

// Relation r with the arguments after the place p, before the step or after it.
fn atom(out: &mut Printer, book: &Book, k: usize, r: usize, p: usize, when: When)
    requires { Stands book.now r p }
    ensures { Lists out.old out.new (lines.atom_items (is_after when) k (atom_of book.now r p)) }
{
    out.put(b' ');
    Name::Flag(r).print_when(out, when);
    let arguments = &book.bytes[p + 1..p + 1 + book.arity(r)];
    for (i, x) in arguments.iter().enumerate() {
        same(out, Name::Place(r, i), when, Name::Input(k, *x as usize));
    }
}

// The body, which is relation r with the arguments after the place p, or none where r is the format's byte 255.
fn body(out: &mut Printer, book: &Book, k: usize, r: u8, p: usize)
    requires { (r ≡ 255) ⊎ Stands book.now r p }
    ensures { Lists out.old out.new (lines.body_items k (body_of book.now r p)) }
{
    if r != 255 {
        atom(out, book, k, r as usize, p, When::Before);
    }
}

// Relation r keeps its flag and its m places.
fn frame(out: &mut Printer, r: usize, m: usize)
    ensures { Lists out.old out.new (lines.frame r m) }
{
    let f = Name::Flag(r);
    same(out, f, When::After, f);
    for i in 0..m {
        let n = Name::Place(r, i);
        same(out, n, When::After, n);
    }
}

// The same, unless r is h.
fn frame_but(out: &mut Printer, h: usize, r: usize, m: usize)
    ensures { Lists out.old out.new (lines.frame_but h r m) }
{
    if r != h {
        frame(out, r, m);
    }
}

// Every relation but h keeps its flag and places.
fn frames(out: &mut Printer, book: &Book, h: usize)
    ensures { Lists out.old out.new (over 0 (meant book.now).arities (lines.frame_but h)) }
{
    for r in 0..book.relations() {
        frame_but(out, h, r, book.arity(r));
    }
}

// The part of clause k.
pub fn part(out: &mut Printer, book: &Book, k: usize)
    requires { k < book.now.header.count }
    ensures { Lists out.old out.new (lines.clause_part_of (meant book.now) k (get_or (meant book.now).clauses k none_such)) }
{
    let l = book.record(k);
    let head = l.head as usize;
    out.put_all(b" (and true");
    windows(out, book, k, l.variables as usize);
    out.put(b' ');
    constraint(out, book.bytes, k, l.variables, l.rule);
    body(out, book, k, l.body, l.body_at);
    atom(out, book, k, head, l.head_at, When::After);
    frames(out, book, head);
    out.put(b')');
}
