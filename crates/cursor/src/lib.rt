// The reading of clause records: a cursor by value, whose steps hand back what was read with the moved cursor, or the refusal.
#![tactic(auto)]

ghost use Rattle.std.specs.Prelude.{◌≡◌, ◌≤◌, length};
ghost use Rattle.cursor.specs.Steps.{byte_at, below_at, relation_at, variable_at, skip_at, number_at, kind_at, sum_at, remains_at, node_at};
ghost use Rattle.cursor.specs.Walk.{constraint_at};
ghost use Rattle.cursor.specs.Clause.{arguments_at, fact_at, body_at, parts_at, clause_at};

use reply::{Refusal, refuse};

// A place in the bytes, and how many nodes a constraint may still have.
#[derive(Clone, Copy)]
pub struct Cursor {
    pub at: usize,
    pub left: usize,
}

// What was read, with the cursor past it, or the refusal.
pub type Reading<T> = Result<(T, Cursor), Refusal>;

// Where a sum's coefficients start.
#[derive(Clone, Copy)]
pub struct Atom {
    pub at: usize,
}

// A comparison of a sum with zero, kinds 1 and 2.
#[derive(Clone, Copy)]
pub enum Comparison {
    AtMost(Atom),
    Equal(Atom),
}

// A remainder's sum, divisor and what is to be left, kind 6.
#[derive(Clone, Copy)]
pub struct Remains {
    pub sum: Atom,
    pub d: u16,
    pub r: u16,
}

// A node of a constraint: one of seven kinds, each with its own data.
#[derive(Clone, Copy)]
pub enum Node {
    True,
    Compare(Comparison),
    Not,
    And,
    Or,
    Remainder(Remains),
}

// A clause record's parts, by the places where they start.
#[derive(Clone, Copy)]
pub struct Clause {
    pub variables: u8,
    pub body: u8,
    pub body_at: usize,
    pub head: u8,
    pub head_at: usize,
    pub rule: usize,
}

impl Cursor {
    // one byte
    #[tactic(auto, unfolding(crate::specs::Steps::byte_at, crate::specs::Steps::pick, reply::specs::Then::go_on))]
    pub fn byte(self, s: &[u8]) -> Reading<u8>
        ensures { result ≡ byte_at s.now self }
    {
        let at = self.at;
        if at < s.len() {
            Ok((s[at], Cursor { at: at + 1, ..self }))
        } else {
            refuse(8, s.len())
        }
    }

    // a byte below n, else the refusal with this number at its place
    #[tactic(auto, unfolding(crate::specs::Steps::below_at, crate::specs::Steps::pick, reply::specs::Then::go_on))]
    fn below(self, s: &[u8], n: u8, number: u8) -> Reading<u8>
        ensures { result ≡ below_at number s.now n self }
    {
        let (b, c) = self.byte(s)?;
        if b < n {
            Ok((b, c))
        } else {
            refuse(number, self.at)
        }
    }

    // a relation's number, below n
    #[tactic(auto, unfolding(crate::specs::Steps::relation_at, crate::specs::Steps::pick, reply::specs::Then::go_on))]
    pub fn relation(self, s: &[u8], n: u8) -> Reading<u8>
        ensures { result ≡ relation_at s.now n self }
    {
        self.below(s, n, 5)
    }

    // a variable's number, below v
    #[tactic(auto, unfolding(crate::specs::Steps::variable_at, crate::specs::Steps::pick, reply::specs::Then::go_on))]
    pub fn variable(self, s: &[u8], v: u8) -> Reading<u8>
        ensures { result ≡ variable_at s.now v self }
    {
        self.below(s, v, 6)
    }

    // past n bytes
    #[tactic(auto, unfolding(crate::specs::Steps::skip_at, crate::specs::Steps::pick, reply::specs::Then::go_on))]
    pub fn skip(self, s: &[u8], n: usize) -> Result<Cursor, Refusal>
        ensures { result ≡ skip_at s.now n self }
    {
        let at = self.at;
        if at <= s.len() && n <= s.len() - at {
            Ok(Cursor { at: at + n, ..self })
        } else {
            refuse(8, s.len())
        }
    }

    // a number of two bytes
    #[tactic(auto, unfolding(crate::specs::Steps::number_at, crate::specs::Steps::pick, reply::specs::Then::go_on))]
    pub fn number(self, s: &[u8]) -> Reading<u16>
        ensures { result ≡ number_at s.now self }
    {
        let c = self.skip(s, 2)?;
        Ok((whole::u16_at(s, self.at), c))
    }

    // the kind byte of a node, with the cursor's nodes left
    #[tactic(auto, unfolding(crate::specs::Steps::kind_at, crate::specs::Steps::pick, reply::specs::Then::go_on))]
    pub fn kind(self, s: &[u8]) -> Reading<u8>
        ensures { result ≡ kind_at s.now self }
    {
        let (k, c) = self.byte(s)?;
        if 0 < c.left {
            Ok((
                k,
                Cursor {
                    left: c.left - 1,
                    ..c
                },
            ))
        } else {
            refuse(7, self.at)
        }
    }

    // v coefficients and the constant
    #[tactic(auto, unfolding(crate::specs::Steps::sum_at, crate::specs::Steps::pick, reply::specs::Then::go_on))]
    pub fn sum(self, s: &[u8], v: u8) -> Result<Cursor, Refusal>
        ensures { result ≡ sum_at s.now v self }
    {
        self.skip(s, (v as usize) * 2 + 4)
    }

    // a remainder node's data
    #[tactic(auto, unfolding(crate::specs::Steps::remains_at, crate::specs::Steps::pick, reply::specs::Then::go_on))]
    pub fn remains(self, s: &[u8], v: u8) -> Reading<Node>
        ensures { result ≡ remains_at s.now v self }
    {
        let divisor = self.sum(s, v)?;
        let (d, rest) = divisor.number(s)?;
        if d == 0 {
            return refuse(7, divisor.at);
        }
        let (r, c) = rest.number(s)?;
        if r < d {
            let sum = Atom { at: self.at };
            Ok((Node::Remainder(Remains { sum, d, r }), c))
        } else {
            refuse(7, rest.at)
        }
    }

    // a node: its kind and the data that is its own
    #[tactic(auto, unfolding(crate::specs::Steps::node_at, crate::specs::Steps::kinds, crate::specs::Steps::pick, reply::specs::Then::go_on))]
    pub fn node(self, s: &[u8], v: u8) -> Reading<Node>
        ensures { result ≡ node_at s.now v self }
    {
        let (k, c) = self.kind(s)?;
        match k {
            0 => Ok((Node::True, c)),
            1 => {
                let end = c.sum(s, v)?;
                Ok((Node::Compare(Comparison::AtMost(Atom { at: c.at })), end))
            }
            2 => {
                let end = c.sum(s, v)?;
                Ok((Node::Compare(Comparison::Equal(Atom { at: c.at })), end))
            }
            3 => Ok((Node::Not, c)),
            4 => Ok((Node::And, c)),
            5 => Ok((Node::Or, c)),
            6 => c.remains(s, v),
            _ => refuse(7, self.at),
        }
    }

    // a whole constraint, of at most depth levels
    pub fn constraint(self, s: &[u8], v: u8, depth: usize) -> Result<Cursor, Refusal>
        ensures { result ≡ constraint_at depth s.now v self }
    {
        if depth == 0 {
            self.byte(s)?;
            return refuse(7, self.at);
        }
        let (n, c) = self.node(s, v)?;
        match n {
            Node::True | Node::Compare(_) | Node::Remainder(_) => Ok(c),
            Node::Not => c.constraint(s, v, depth - 1),
            Node::And | Node::Or => {
                let c = c.constraint(s, v, depth - 1)?;
                c.constraint(s, v, depth - 1)
            }
        }
    }

    // past count arguments, each a variable's number
    pub fn arguments(self, s: &[u8], v: u8, count: u8) -> Result<Cursor, Refusal>
        ensures { result ≡ arguments_at count s.now v self }
    {
        let mut c = self;
        for _ in 0..count {
            let (_, next) = c.variable(s, v)?;
            c = next;
        }
        Ok(c)
    }

    // a relation and its arguments
    #[tactic(auto, unfolding(crate::specs::Clause::fact_at, crate::specs::Steps::pick, reply::specs::Then::go_on))]
    pub fn fact(self, s: &[u8], n: u8, v: u8) -> Reading<u8>
        requires { n ≤ length s.now }
        ensures { result ≡ fact_at s.now n v self }
    {
        let (b, c) = self.relation(s, n)?;
        let c = c.arguments(s, v, s[b as usize])?;
        Ok((b, c))
    }

    // a body: a relation and its arguments, or 255, the format's byte for none, which `body_at` hands on as it was read
    #[tactic(auto, unfolding(crate::specs::Clause::body_at, crate::specs::Steps::pick, reply::specs::Then::go_on))]
    pub fn body(self, s: &[u8], n: u8, v: u8) -> Reading<u8>
        requires { n ≤ length s.now }
        ensures { result ≡ body_at s.now n v self }
    {
        let (b, c) = self.byte(s)?;
        if b == 255 {
            Ok((b, c))
        } else {
            self.fact(s, n, v)
        }
    }

    // a clause record up to its constraint: where its parts stand
    #[tactic(auto, unfolding(crate::specs::Clause::parts_at, crate::specs::Steps::pick, reply::specs::Then::go_on))]
    pub fn parts(self, s: &[u8], n: u8) -> Reading<Clause>
        requires { n ≤ length s.now }
        ensures { result ≡ parts_at s.now n self }
    {
        let (variables, c1) = self.variable(s, 17)?;
        let (body, c2) = c1.body(s, n, variables)?;
        let (head, c3) = c2.fact(s, n, variables)?;
        let parts = Clause {
            variables,
            body,
            body_at: c1.at,
            head,
            head_at: c2.at,
            rule: c3.at,
        };
        Ok((parts, c3))
    }

    // a whole clause record
    #[tactic(auto, unfolding(crate::specs::Clause::clause_at, crate::specs::Steps::pick, reply::specs::Then::go_on))]
    pub fn clause(self, s: &[u8], n: u8) -> Reading<Clause>
        requires { n ≤ length s.now }
        ensures { result ≡ clause_at s.now n self }
    {
        let (parts, c) = self.parts(s, n)?;
        let start = Cursor { at: c.at, left: 64 };
        let past = start.constraint(s, parts.variables, 16)?;
        Ok((parts, past))
    }
}
