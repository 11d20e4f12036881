// The truth of a constraint, worked out on the bytes that hold it.
#![tactic(auto)]

ghost use Rattle.std.specs.Prelude.{◌≡◌, ◌+◌, ◌*◌, ◌<◌, ◌≤◌, length, take, drop};
ghost use Rattle.whole.specs.Whole.{Sized};
ghost use Rattle.meaning.specs.Constraint.{leaves, value_of, holds};
ghost use Rattle.cursor.specs.Tree.{sum_of};
ghost use Rattle.cursor.specs.Sound.{IsTree};
ghost use Rattle.cursor.specs.Meaning.{tree_in};
ghost use Rattle.truth.specs.Stood.{size_of, parts_of, joins_of, Alone, Judged, Rowed, Ended};
ghost use Rattle.truth.specs.Sides.{bits_of, Opened};

// The constant and each coefficient times its variable's value. Its size is at most 2^31 + 16 · 2^46.
fn sum(s: &[u8], at: usize, values: &[i32]) -> i64
    requires { (length values.now ≤ 16) × (at + (length values.now * 2 + 4) ≤ length s.now) }
    ensures { Sized (value_of (sum_of s.now (length values.now) at) values.now) 1125902054326272 result }
{
    let mut acc = whole::i32_at(s, at + values.len() * 2);
    for (k, &value) in values.iter().enumerate() {
        acc += whole::i16_at(s, at + k * 2) * value as i64;
    }
    acc
}

// d is a divisor and m what must be left
fn leaves_over(x: i64, d: u64, m: u64) -> bool
    requires { 0 < d }
    ensures { result ≡ leaves d m x }
{
    if x < 0 { false } else { x as u64 % d == m }
}

// ---- kinds

// The seven kinds of a constraint, in the order of the bytes that stand for them. A byte is compared with a kind's and not turned into a kind:
// a table or a `match` for that made the check of a derivation slower by a tenth at constraints of sixteen nodes (measured).
enum Kind {
    True,
    AtMost,
    Equal,
    Not,
    And,
    Or,
    Remainder,
}

// and and or, of two sides
#[tactic(auto, unfolding(crate::specs::Stood::joins_of))]
fn joins(k: u8) -> bool
    ensures { result ≡ joins_of k }
{
    k == Kind::And as u8 || k == Kind::Or as u8
}

// how many bytes a constraint of kind k has beside those that stand below it
#[tactic(auto, using(cursor::proofs::Laws::ways), unfolding(crate::specs::Stood::size_of))]
fn size(k: u8, v: usize) -> usize
    requires { v ≤ 16 }
    ensures { result ≡ size_of k v }
{
    if k == Kind::True as u8 {
        return 1;
    }
    if k < Kind::Not as u8 {
        return 5 + v * 2;
    }
    if k < Kind::Remainder as u8 {
        1
    } else {
        9 + v * 2
    }
}

// how many constraints stand below one of kind k
#[tactic(auto, using(cursor::proofs::Laws::ways), unfolding(crate::specs::Stood::parts_of))]
fn parts(k: u8) -> usize
    ensures { result ≡ parts_of k }
{
    if k == Kind::Not as u8 {
        return 1;
    }
    if joins(k) { 2 } else { 0 }
}

// A constraint with none below it: whether it is true, and where it ends.
#[derive(Clone, Copy)]
struct Leaf {
    met: bool,
    past: usize,
}

// the truth of a constraint of kind k at p that has none below it
fn judged(k: u8, s: &[u8], p: usize, values: &[i32]) -> Leaf
    requires { (length values.now ≤ 16) × Alone s.now (length values.now) p k }
    ensures { Judged s.now (length values.now) p k values.now result }
{
    if k == Kind::True as u8 {
        return Leaf {
            met: true,
            past: p + 1,
        };
    }
    let x = sum(s, p + 1, values);
    let past = p + 5 + values.len() * 2;
    if k == Kind::AtMost as u8 {
        return Leaf { met: x <= 0, past };
    }
    if k == Kind::Equal as u8 {
        return Leaf { met: x == 0, past };
    }
    let d = whole::u16_at(s, past) as u64;
    let m = whole::u16_at(s, past + 2) as u64;
    Leaf {
        met: leaves_over(x, d, m),
        past: past + 4,
    }
}

// ---- whole constraints

// the place past `left` constraints that stand from p on, no sum worked out
fn end(s: &[u8], p: usize, v: usize, left: usize) -> usize
    requires { (v ≤ 16) × Rowed s.now v left p }
    ensures { Ended s.now v left p result }
{
    let mut at = p;
    let mut n = left;
    // how many are left goes up and down
    while 0 < n {
        let k = s[at];
        n = n - 1 + parts(k);
        at += size(k, v);
    }
    at
}

// A second side that waits, in two bits: what the first must be for it to count, and what is wanted of it.
#[tactic(auto, unfolding(crate::specs::Sides::bits_of))]
fn bits(first: bool, want: bool) -> u64
    ensures { result ≡ bits_of first want }
{
    first as u64 * 2 + want as u64
}

// Sides that wait, 1 and then two bits each with the nearest lowest, and how many were passed by.
// The sides are packed in one number, and no array of them, for speed: it stays in a register from step to step.
#[derive(Clone, Copy)]
struct Waiting {
    sides: u64,
    passed: usize,
}

// The sides from the nearest on that counts where what stands before it is t; 1 where none does. Most often the nearest one does, so it is tested
// before the loop: a copy in Rust with the loop alone was slower.
fn opened(sides: u64, t: bool) -> Waiting
    ensures { Opened sides t result }
{
    if sides < 4 || t == (1 < sides % 4) {
        return Waiting { sides, passed: 0 };
    }
    let mut rest = sides / 4;
    let mut passed = 1;
    // two bits at a time, until one counts
    while 3 < rest && t != (1 < rest % 4) {
        rest /= 4;
        passed += 1;
    }
    Waiting {
        sides: rest,
        passed,
    }
}

// The truth of the constraint at p, over v variables whose values stand in the list from `from` on.
// A constraint below an odd number of nots is wanted false; what is true of the whole is what is wanted of its parts.
#[tactic(auto, using(crate::proofs::Due::waiting))]
pub fn walk(s: &[u8], p: usize, v: u8, values: &[i32], from: usize) -> bool
    requires v_bound { (v ≤ 16) × (from + v ≤ length values.now) }
    requires tree { IsTree s.now v p }
    ensures { result ≡ holds (take v (drop from values.now)) (tree_in s.now v p) }
{
    let n = v as usize;
    let xs = &values[from..from + n];
    let mut at = p;
    let mut want = true;
    let mut sides: u64 = 1;
    // to the leaf that settles it, from node to node of different lengths
    loop {
        let k = s[at];
        if k == Kind::Not as u8 {
            want = !want;
            at += 1;
        } else if joins(k) {
            sides = sides * 4 + bits(want == (k == Kind::And as u8), want);
            at += 1;
        } else {
            let l = judged(k, s, at, xs);
            let t = want == l.met;
            let w = opened(sides, t);
            if w.sides < 4 {
                return t;
            }
            at = end(s, l.past, n, w.passed);
            want = w.sides % 2 == 1;
            sides = w.sides / 4;
        }
    }
}

// The same, for a call at each step: a constraint that is true or a comparison is judged without the walk. The bytes are lent on as a part made here:
// a copy of the pair that was lent would stall where the caller has just stored it.
pub fn truth(s: &[u8], p: usize, v: u8, values: &[i32], from: usize) -> bool
    requires v_bound { (v ≤ 16) × (from + v ≤ length values.now) }
    requires tree { IsTree s.now v p }
    ensures { result ≡ holds (take v (drop from values.now)) (tree_in s.now v p) }
{
    let k = s[p];
    if k < Kind::Not as u8 {
        let l = judged(k, s, p, &values[from..from + v as usize]);
        l.met
    } else {
        let n = s.len();
        walk(&s[..n], p, v, values, from)
    }
}
