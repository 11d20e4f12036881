// Printing the terms of the printed text: names, limits, equations, and a clause's constraint out of the bytes that hold it.
#![tactic(auto)]

ghost use Rattle.std.specs.Prelude.{◌∷◌, ◌++◌, ◌+◌, ◌*◌, ◌≤◌, length};
ghost use Rattle.sexp.specs.Bytes.{bytes};
ghost use Rattle.sexp.specs.Sexp.{end, ◌&◌};
ghost use Rattle.put.specs.Digits.{digits};
ghost use Rattle.put.specs.Shows.{Wrote, Shows, Lists};
ghost use Rattle.cursor.specs.Tree.{tree_at};
ghost use Rattle.cursor.specs.Sound.{CompareThere, RemainsThere, IsTree};
ghost use Rattle.cursor.specs.Meaning.{tree_in};
ghost use Rattle.book.specs.Windows.{window_of};
ghost use Rattle.script.specs.Names.{in_state};
ghost use Rattle.script.specs.Terms as term;
ghost use Rattle.term.specs.Name.{name_of, is_after};
ghost use Rattle.term.specs.Drawn.{sum_in, zero_of, compared_of, remains_of, Drawn, DrawnTwo};

use cursor::{Comparison, Cursor, Node, Remains};
use put::Printer;

// A relation's flag, one of its places, or one of a clause's variables.
#[derive(Clone, Copy)]
pub enum Name {
    Flag(usize),
    Place(usize, usize),
    Input(usize, usize),
}

// Before a step, or after it.
#[derive(Clone, Copy)]
pub enum When {
    Before,
    After,
}

// A letter and two numbers.
fn numbered(out: &mut Printer, b: u8, m: usize, n: usize)
    ensures { Wrote out.old out.new (b ∷ digits m ++ bytes "_" ++ digits n) }
{
    out.put(b);
    out.decimal(m);
    out.put(b'_');
    out.decimal(n);
}

impl Name {
    // The name.
    pub fn print(self, out: &mut Printer)
        ensures { Wrote out.old out.new (name_of self) }
    {
        match self {
            Name::Flag(r) => {
                out.put(b'l');
                out.decimal(r);
            }
            Name::Place(r, i) => numbered(out, b'p', r, i),
            Name::Input(k, i) => numbered(out, b'y', k, i),
        }
    }

    // The name before a step, or after it.
    pub fn print_when(self, out: &mut Printer, when: When)
        ensures { Wrote out.old out.new (in_state (is_after when) (name_of self)) }
    {
        self.print(out);
        match when {
            When::Before => {}
            When::After => out.put(b'n'),
        }
    }
}

// The two limits of a name.
pub fn limits(out: &mut Printer, n: Name, o: book::Window)
    ensures { Lists out.old out.new (term.limits (window_of o) (name_of n)) }
{
    out.put_all(b" (<= ");
    out.signed(o.lo.into());
    out.put(b' ');
    n.print(out);
    out.put_all(b") (<= ");
    n.print(out);
    out.put(b' ');
    out.signed(o.hi.into());
    out.put(b')');
}

// That the name m, before a step or after it, is the name n.
pub fn same(out: &mut Printer, m: Name, when: When, n: Name)
    ensures { Lists out.old out.new (term.same (in_state (is_after when) (name_of m)) (name_of n) & end) }
{
    out.put_all(b" (= ");
    m.print_when(out, when);
    out.put(b' ');
    n.print(out);
    out.put(b')');
}

// A clause, by its number and how many variables it has, and the bytes that hold it.
#[derive(Clone, Copy)]
struct Rule<'a> {
    bytes: &'a [u8],
    clause: usize,
    variables: u8,
}

impl Rule<'_> {
    // A coefficient times variable i.
    fn product(&self, out: &mut Printer, i: usize, c: i64)
        ensures { Lists out.old out.new (term.product self.now.clause i c) }
    {
        out.put_all(b" (* ");
        out.signed(c);
        out.put(b' ');
        numbered(out, b'y', self.clause, i);
        out.put(b')');
    }

    // The sum whose coefficients and constant stand at p.
    fn sum(&self, out: &mut Printer, p: usize)
        requires { p + (self.now.variables * 2 + 4) ≤ length self.now.bytes.now }
        ensures { Shows out.old out.new (sum_in self.now p) }
    {
        let v = self.variables as usize;
        out.put_all(b"(+ 0 ");
        out.signed(whole::i32_at(self.bytes, p + v * 2));
        for i in 0..v {
            self.product(out, i, whole::i16_at(self.bytes, p + i * 2));
        }
        out.put(b')');
    }

    // A sum and zero, as they end a comparison.
    fn with_zero(&self, out: &mut Printer, p: usize)
        requires { p + (self.now.variables * 2 + 4) ≤ length self.now.bytes.now }
        ensures { Wrote out.old out.new (zero_of self.now p) }
    {
        out.put(b' ');
        self.sum(out, p);
        out.put_all(b" 0)");
    }

    // A comparison of a sum with zero.
    fn compare(&self, out: &mut Printer, n: Comparison)
        requires { CompareThere self.now.bytes.now self.now.variables n }
        ensures { Shows out.old out.new (compared_of self.now n) }
    {
        match n {
            Comparison::AtMost(x) => {
                out.put_all(b"(<=");
                self.with_zero(out, x.at);
            }
            Comparison::Equal(x) => {
                out.put_all(b"(=");
                self.with_zero(out, x.at);
            }
        }
    }

    // What a sum leaves.
    fn remains(&self, out: &mut Printer, m: Remains)
        requires { RemainsThere self.now.bytes.now self.now.variables m }
        ensures { Shows out.old out.new (remains_of self.now m) }
    {
        let p = m.sum.at;
        out.put_all(b"(and (<= 0 ");
        self.sum(out, p);
        out.put_all(b") (= (mod ");
        self.sum(out, p);
        out.put(b' ');
        out.decimal(m.d as usize);
        out.put_all(b") ");
        out.decimal(m.r as usize);
        out.put_all(b"))");
    }

    // The constraint at the cursor, of at most depth levels, and where reading stands after it.
    #[cycle(tree_two)]
    fn tree(&self, out: &mut Printer, c: Cursor, depth: usize) -> Cursor
        ensures { Drawn self.now.clause (tree_at self.now.bytes.now self.now.variables depth c) out.old out.new result }
    {
        if depth == 0 {
            return c;
        }
        let Ok((n, next)) = c.node(self.bytes, self.variables) else {
            return c;
        };
        match n {
            Node::True => {
                out.put_all(b"true");
                next
            }
            Node::Compare(x) => {
                self.compare(out, x);
                next
            }
            Node::Remainder(m) => {
                self.remains(out, m);
                next
            }
            Node::Not => {
                out.put_all(b"(not ");
                let last = self.tree(out, next, depth - 1);
                out.put(b')');
                last
            }
            Node::And => {
                out.put_all(b"(and");
                self.two(out, next, depth - 1)
            }
            Node::Or => {
                out.put_all(b"(or");
                self.two(out, next, depth - 1)
            }
        }
    }

    // Two constraints, and the closing bracket.
    #[cycle(tree_two)]
    fn two(&self, out: &mut Printer, c: Cursor, depth: usize) -> Cursor
        ensures { DrawnTwo self.now.clause (tree_at self.now.bytes.now self.now.variables depth) c out.old out.new result }
    {
        out.put(b' ');
        let c = self.tree(out, c, depth);
        out.put(b' ');
        let c = self.tree(out, c, depth);
        out.put(b')');
        c
    }
}

// The constraint of clause k of v variables, which stands at p.
pub fn constraint(out: &mut Printer, s: &[u8], k: usize, v: u8, p: usize)
    requires { IsTree s.now v p }
    ensures { Shows out.old out.new (term.constraint k (tree_in s.now v p)) }
{
    let rule = Rule {
        bytes: s,
        clause: k,
        variables: v,
    };
    rule.tree(out, Cursor { at: p, left: 64 }, 16);
}
