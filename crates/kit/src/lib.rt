// What C and Rust call, by the names that kit_c exports: each is one call of the libraries, its answer told in document 01's numbers.
#![tactic(auto)]

ghost use Rattle.std.specs.Prelude.{◌≡◌};
ghost use Rattle.reply.specs.Answer.{says};
ghost use Rattle.kit.specs.Promises.{Tells, Hands, ReadsBook, ChecksDerivation, ChecksTrace, GivesTrace, GivesDerivation, PrintsText, ChecksModel};

// number is returned, and `at` written
fn told(place: &mut u64, number: u8, at: usize) -> u32
    ensures { (result ≡ number) × (place.new ≡ at) }
{
    *place = at as u64;
    number as u32
}

// an answer
fn answered(a: reply::Answer, place: &mut u64) -> u32
    ensures { Tells (says a) result place.new }
{
    match a {
        Ok(n) => told(place, 0, n),
        Err(refusal) => told(place, refusal.number, refusal.place),
    }
}

// Reads a book.
pub fn ruahmitz_book(book: &[u8], place: &mut u64) -> u32
    ensures { ReadsBook book.now result place.new }
{
    answered(book::refused_by(book::read_book(book)), place)
}

// The constraint of a numbered clause: its length is returned, and where it starts is written.
pub fn ruahmitz_constraint(book: &[u8], clause: u64, start: &mut u64) -> usize
    ensures { Hands book.now clause result start.new }
{
    let p = book::constraint_span(book, clause as usize);
    *start = p.start as u64;
    p.end - p.start
}

// Whether a list is a derivation of the goal.
pub fn ruahmitz_derivation(
    book: &[u8],
    list: &[i32],
    relation: u64,
    values: &[i32],
    place: &mut u64,
) -> u32
    ensures { ChecksDerivation book.now list.now relation values.now result place.new }
{
    answered(
        derivation::check(book, list, relation as usize, values),
        place,
    )
}

// Whether a list is a trace that reaches the goal.
pub fn ruahmitz_trace(
    book: &[u8],
    list: &[i32],
    relation: u64,
    values: &[i32],
    place: &mut u64,
) -> u32
    ensures { ChecksTrace book.now list.now relation values.now result place.new }
{
    answered(trace::check(book, list, relation as usize, values), place)
}

// Writes a derivation's trace into the room.
pub fn ruahmitz_to_trace(
    book: &[u8],
    list: &[i32],
    relation: u64,
    values: &[i32],
    room: &mut [i32],
    place: &mut u64,
) -> u32
    ensures { GivesTrace book.now list.now relation values.now room.old result place.new room.new }
{
    answered(
        convert::to_trace(book, list, relation as usize, values, room),
        place,
    )
}

// Writes a trace's derivation into the room.
pub fn ruahmitz_to_derivation(
    book: &[u8],
    list: &[i32],
    relation: u64,
    values: &[i32],
    room: &mut [i32],
    place: &mut u64,
) -> u32
    ensures { GivesDerivation book.now list.now relation values.now room.old result place.new room.new }
{
    answered(
        convert::to_derivation(book, list, relation as usize, values, room),
        place,
    )
}

// Prints the transition system into the room.
pub fn ruahmitz_text(book: &[u8], room: &mut [u8], place: &mut u64) -> u32
    ensures { PrintsText book.now room.old result place.new room.new }
{
    answered(text::print(book, room), place)
}

// Whether the model excludes the query.
pub fn ruahmitz_model(
    book: &[u8],
    model: &[u8],
    place: &mut u64,
    count: &mut u64,
    clause: &mut u64,
    values: &mut [i32; 16],
) -> u32
    ensures { ChecksModel book.now model.now result place.new count.new clause.new values.new }
{
    let a = model::check(book, model);
    *count = a.count as u64;
    *clause = a.clause as u64;
    let v = a.values;
    *values = v;
    answered(a.answer, place)
}
