// What a call answers: nothing but that it is done, or why it did nothing.
ghost use Rattle.std.specs.Prelude.{◌≡◌};
ghost use Rattle.answer_bytes.specs.Answers.{unanswered_number, answer_number};

use plan::Refusal;

// Why a call did nothing.
#[derive(Clone, Copy, Debug, PartialEq, Eq)]
pub enum Unanswered {
    Refused(Refusal),
    // the shown run has no more steps
    Finished,
    // a lent buffer has another length than the call asks for
    AnotherLength,
}

impl Unanswered {
    pub fn number(self) -> u8
        ensures { result ≡ unanswered_number self }
    {
        match self {
            Unanswered::Refused(refusal) => refusal.number(),
            Unanswered::Finished => 254,
            Unanswered::AnotherLength => 255,
        }
    }
}

impl From<Refusal> for Unanswered {
    ghost use Rattle.answer_bytes.specs.declared.answers.Unanswered.TheVariants.{Refused};

    ghost from_gives = { λ refusal unanswered. unanswered ≡ Refused refusal };

    fn from(refusal: Refusal) -> Unanswered {
        Self::Refused(refusal)
    }
}

// An answer as a number: 0 where there is one, else the number of what stands in its place.
pub fn answer_number<A>(answer: &Result<A, Unanswered>) -> u8
    ensures { result ≡ answer_number answer.now }
{
    match answer {
        Ok(_) => 0,
        Err(unanswered) => unanswered.number(),
    }
}
