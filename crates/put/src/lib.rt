// Printing into a lent room. A position past the room is counted and nothing is stored there, so that a text is measured by printing it into an empty room.
#![tactic(auto)]

ghost use Rattle.std.specs.Prelude.{◌≡◌, ◌≤◌, [], ◌∷◌, length};
ghost use Rattle.put.specs.Room.{top};
ghost use Rattle.put.specs.Digits.{digits};
ghost use Rattle.put.specs.Number.{num};

// A lent room, and where printing stands in it. It is no `Formatter`, which answers a Result and holds no place.
#[derive(Drop)]
pub struct Printer<'a> {
    room: &'a mut [u8],
    at: usize,
    pub ghost fits: { length room.now ≤ top },
    pub ghost there: { at ≤ top },
}

impl<'a> Printer<'a> {
    ghost use Rattle.put.specs.Shows.{Begins, Wrote, Shows};

    // Begins at a place of a room.
    pub fn new(room: &'a mut [u8], at: usize) -> Printer<'a>
        ensures { Begins room.entry at result }
    {
        Printer { room, at }
    }

    // How much is printed.
    pub fn at(&self) -> usize
        ensures { result ≡ self.now.at }
    {
        self.at
    }

    // One byte.
    pub fn put(&mut self, b: u8)
        ensures { Wrote self.old self.new (b ∷ []) }
    {
        let at = self.at;
        self.at = at.saturating_add(1);
        if at < self.room.len() {
            self.room[at] = b;
        }
    }

    // A string of bytes.
    pub fn put_all(&mut self, bytes: &[u8])
        ensures { Wrote self.old self.new bytes.now }
    {
        let at = self.at;
        self.at = at.saturating_add(bytes.len());
        if at < self.room.len() {
            let held = bytes.len().min(self.room.len() - at);
            self.room[at..at + held].copy_from_slice(&bytes[..held]);
        }
    }

    // A number's decimal digits, the most significant first.
    pub fn decimal(&mut self, n: usize)
        ensures { Wrote self.old self.new (digits n) }
    {
        if n < 10 {
            self.put(n as u8 + b'0');
        } else {
            self.decimal(n / 10);
            self.put((n % 10) as u8 + b'0');
        }
    }

    // A number below zero as `(- 5)`, any other by its digits.
    pub fn signed(&mut self, n: i64)
        ensures { Shows self.old self.new (num n) }
    {
        let m = n.unsigned_abs() as usize;
        if n < 0 {
            self.put_all(b"(- ");
            self.decimal(m);
            self.put(b')');
        } else {
            self.decimal(m);
        }
    }
}
