// The printed text of a book, into a lent room.
#![tactic(auto)]

ghost use Rattle.std.specs.Prelude.{◌≡◌, length};
ghost use Rattle.reply.specs.Room.{Leaves};
ghost use Rattle.meaning.specs.Book.{none_such, place_window};
ghost use Rattle.book.specs.Held.{meant};
ghost use Rattle.sexp.specs.Bytes as said;
ghost use Rattle.sexp.specs.Sexp.{end, ◌&◌, each, over};
ghost use Rattle.put.specs.Room.{paste, sat};
ghost use Rattle.put.specs.Shows.{Wrote, Lists, Lines};
ghost use Rattle.script.specs.Names.{in_state};
ghost use Rattle.script.specs.Lines as lines;
ghost use Rattle.script.specs.Text.{text};
ghost use Rattle.term.specs.Name.{name_of, is_after};
ghost use Rattle.text.specs.Sort.{sort_of};
ghost use Rattle.text.specs.Reply.{print_due};

use book::Book;
use put::Printer;
use term::{Name, When};

// Flags are of sort Bool, places and variables of sort Int.
fn sort(n: Name) -> &'static [u8]
    ensures { result.now ≡ said.bytes (sort_of n) }
{
    match n {
        Name::Flag(_) => b"Bool",
        Name::Place(_, _) | Name::Input(_, _) => b"Int",
    }
}

// The declaration of a name.
fn declare(out: &mut Printer, n: Name, when: When)
    ensures { Lines out.old out.new (lines.declare (in_state (is_after when) (name_of n)) (sort_of n) & end) }
{
    out.put_all(b"(declare-fun ");
    n.print_when(out, when);
    out.put_all(b" () ");
    out.put_all(sort(n));
    out.put_all(b")\n");
}

// The definition that ties a flag or place to what it is after a step.
fn pair(out: &mut Printer, n: Name)
    ensures { Lines out.old out.new (lines.pair_line (sort_of n) (name_of n) & end) }
{
    out.put_all(b"(define-fun s");
    n.print(out);
    out.put_all(b" () ");
    out.put_all(sort(n));
    out.put_all(b" (! ");
    n.print(out);
    out.put_all(b" :next ");
    n.print_when(out, When::After);
    out.put_all(b"))\n");
}

// The three lines of a flag or place.
fn state(out: &mut Printer, n: Name)
    ensures { Lines out.old out.new (lines.state_lines (sort_of n) (name_of n)) }
{
    declare(out, n, When::Before);
    declare(out, n, When::After);
    pair(out, n);
}

// The lines of relation r, which has m places.
fn relation(out: &mut Printer, r: usize, m: usize)
    ensures { Lines out.old out.new (lines.relation_lines r m) }
{
    state(out, Name::Flag(r));
    for i in 0..m {
        state(out, Name::Place(r, i));
    }
}

// The lines of the relations.
fn relations(out: &mut Printer, book: &Book)
    ensures { Lines out.old out.new (over 0 (meant book.now).arities lines.relation_lines) }
{
    for r in 0..book.relations() {
        relation(out, r, book.arity(r));
    }
}

// The lines of the v variables of clause k.
fn inputs(out: &mut Printer, k: usize, v: usize)
    ensures { Lines out.old out.new (each v (lines.input_line k)) }
{
    for i in 0..v {
        declare(out, Name::Input(k, i), When::Before);
    }
}

// The lines of the variables of each clause.
fn all_inputs(out: &mut Printer, book: &Book)
    ensures { Lines out.old out.new (over none_such (meant book.now).clauses lines.input_lines) }
{
    for k in 0..book.header.count {
        inputs(out, k, book.record(k).variables as usize);
    }
}

// No flag is set.
fn denied(out: &mut Printer, n: usize)
    ensures { Lists out.old out.new (each n lines.denied) }
{
    for r in 0..n {
        out.put_all(b" (not ");
        Name::Flag(r).print(out);
        out.put(b')');
    }
}

// The limits of the m places of relation r.
fn limits_of(out: &mut Printer, book: &Book, r: usize, m: usize)
    ensures { Lists out.old out.new (lines.place_limits (place_window (meant book.now)) r m) }
{
    for i in 0..m {
        term::limits(out, Name::Place(r, i), book.place_window(r, i));
    }
}

// The limits of the places of the relations.
fn place_limits(out: &mut Printer, book: &Book)
    ensures { Lists out.old out.new (over 0 (meant book.now).arities (lines.place_limits (place_window (meant book.now)))) }
{
    for r in 0..book.relations() {
        limits_of(out, book, r, book.arity(r));
    }
}

// `init`.
fn init(out: &mut Printer, book: &Book)
    ensures { Lines out.old out.new (lines.init_line (place_window (meant book.now)) (meant book.now).arities & end) }
{
    out.put_all(b"(define-fun init () Bool (! (and true");
    denied(out, book.relations());
    place_limits(out, book);
    out.put_all(b") :init true))\n");
}

// `trans`.
fn trans(out: &mut Printer, book: &Book)
    ensures { Lines out.old out.new (lines.trans_line (meant book.now) & end) }
{
    out.put_all(b"(define-fun trans () Bool (! (or false false");
    for k in 0..book.header.count {
        part::part(out, book, k);
    }
    out.put_all(b") :trans true))\n");
}

// `prop`, where q is the query.
fn prop(out: &mut Printer, q: usize)
    ensures { Lines out.old out.new (lines.prop_line q & end) }
{
    out.put_all(b"(define-fun prop () Bool (! (not ");
    Name::Flag(q).print(out);
    out.put_all(b") :invar-property 0))\n");
}

// The whole text of a book.
fn script(out: &mut Printer, book: &Book)
    ensures { Wrote out.old out.new (text (meant book.now)) }
{
    relations(out, book);
    all_inputs(out, book);
    init(out, book);
    trans(out, book);
    prop(out, book.header.query as usize);
}

// The same from the front of the room, and how long it is.
fn write(room: &mut [u8], book: &Book) -> usize
    ensures size { result ≡ sat (length (text (meant book.now))) }
    ensures room { room.new ≡ paste room.old 0 (text (meant book.now)) }
{
    let mut out = Printer::new(room, 0);
    script(&mut out, book);
    out.at()
}

// Prints a book's text into the front of the room. The first pass measures it, in an empty room.
pub fn print(book: &[u8], room: &mut [u8]) -> reply::Answer
    ensures { Leaves (print_due book.now room.old) result room.new }
{
    let book = Book::open(book)?;
    let need = write(&mut room[..0], &book);
    if room.len() < need {
        return reply::refuse(9, need);
    }
    write(room, &book);
    Ok(need)
}
