// What a call answers: done, or the refusal.
#![tactic(auto)]

ghost use Rattle.std.specs.Prelude.{◌≡◌, Err};
ghost use Rattle.reply.specs.Answer.{refuse as refusal};

// A refusal: its number and place. The number is document 01's and no enum: `says-told` holds of every number, and C gets it as it is.
#[derive(Clone, Copy)]
pub struct Refusal {
    pub number: u8,
    pub place: usize,
}

// Done, with the length that was written (0 where nothing is), or the refusal.
pub type Answer = Result<usize, Refusal>;

// The refusal with this number at this place, of any call.
pub fn refuse<T>(number: u8, place: usize) -> Result<T, Refusal>
    ensures { result ≡ Err (refusal number place) }
{
    Err(Refusal { number, place })
}
