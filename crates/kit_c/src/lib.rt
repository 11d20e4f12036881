// The functions exported to C and Rust: each is the kit's own, with the same promise.
#![tactic(auto)]

ghost use Rattle.kit.specs.Promises.{Hands, ReadsBook, ChecksDerivation, ChecksTrace, GivesTrace, GivesDerivation, PrintsText, ChecksModel};

// Reads a book.
#[unsafe(no_mangle)]
pub extern "C" fn ruahmitz_book(book: &[u8], place: &mut u64) -> u32
    ensures { ReadsBook book.now result place.new }
{
    kit::ruahmitz_book(book, place)
}

// The constraint of a numbered clause: its length is returned, and where it starts is written.
#[unsafe(no_mangle)]
pub extern "C" fn ruahmitz_constraint(book: &[u8], clause: u64, start: &mut u64) -> usize
    ensures { Hands book.now clause result start.new }
{
    kit::ruahmitz_constraint(book, clause, start)
}

// Whether a list is a derivation of the goal.
#[unsafe(no_mangle)]
pub extern "C" fn ruahmitz_derivation(
    book: &[u8],
    list: &[i32],
    relation: u64,
    values: &[i32],
    place: &mut u64,
) -> u32
    ensures { ChecksDerivation book.now list.now relation values.now result place.new }
{
    kit::ruahmitz_derivation(book, list, relation, values, place)
}

// Whether a list is a trace that reaches the goal.
#[unsafe(no_mangle)]
pub extern "C" fn ruahmitz_trace(
    book: &[u8],
    list: &[i32],
    relation: u64,
    values: &[i32],
    place: &mut u64,
) -> u32
    ensures { ChecksTrace book.now list.now relation values.now result place.new }
{
    kit::ruahmitz_trace(book, list, relation, values, place)
}

// Writes a derivation's trace into the room.
#[unsafe(no_mangle)]
pub extern "C" fn ruahmitz_to_trace(
    book: &[u8],
    list: &[i32],
    relation: u64,
    values: &[i32],
    room: &mut [i32],
    place: &mut u64,
) -> u32
    ensures { GivesTrace book.now list.now relation values.now room.old result place.new room.new }
{
    kit::ruahmitz_to_trace(book, list, relation, values, room, place)
}

// Writes a trace's derivation into the room.
#[unsafe(no_mangle)]
pub extern "C" fn ruahmitz_to_derivation(
    book: &[u8],
    list: &[i32],
    relation: u64,
    values: &[i32],
    room: &mut [i32],
    place: &mut u64,
) -> u32
    ensures { GivesDerivation book.now list.now relation values.now room.old result place.new room.new }
{
    kit::ruahmitz_to_derivation(book, list, relation, values, room, place)
}

// Prints the transition system into the room.
#[unsafe(no_mangle)]
pub extern "C" fn ruahmitz_text(book: &[u8], room: &mut [u8], place: &mut u64) -> u32
    ensures { PrintsText book.now room.old result place.new room.new }
{
    kit::ruahmitz_text(book, room, place)
}

// Whether the model excludes the query.
#[unsafe(no_mangle)]
pub extern "C" fn ruahmitz_model(
    book: &[u8],
    model: &[u8],
    place: &mut u64,
    count: &mut u64,
    clause: &mut u64,
    values: &mut [i32; 16],
) -> u32
    ensures { ChecksModel book.now model.now result place.new count.new clause.new values.new }
{
    kit::ruahmitz_model(book, model, place, count, clause, values)
}
