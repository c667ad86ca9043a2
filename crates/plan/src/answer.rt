// What a check answers.
ghost use Rattle.std.specs.Prelude.{◌≡◌};
ghost use Rattle.protocol.specs.Refusals.{number_of, code_of};
ghost use Rattle.plan.specs.Answer.{refusal_of, refused_by, verdict_of, Indexed};

// The refusals, with the paper's numbers.
#[derive(Clone, Copy, PartialEq, Eq)]
pub enum Refusal {
    BadLength = 1,
    BadMark = 2,
    BadPlan = 3,
    BadBarrier = 4,
    BadWorker = 5,
    BadOp = 6,
    BadOperand = 7,
    TooManySteps = 8,
    NoSize = 9,
    SkipTooFar = 10,
    BadBuffer = 11,
    TooManyTurns = 12,
    BadTurn = 13,
    BadSleep = 14,
    BadBatch = 15,
}

// A refusal, and the index of its record.
#[derive(Clone, Copy, PartialEq, Eq)]
pub struct Refused {
    pub refusal: Refusal,
    pub index: usize,
}

impl Refusal {
    pub fn at(self, index: usize) -> Refused
        ensures { result ≡ refused_by self index }
    {
        Refused {
            refusal: self,
            index,
        }
    }
}

impl From<Refusal> for u32 {
    ghost from_gives = { λ f n. n ≡ number_of (refusal_of f) };

    fn from(refusal: Refusal) -> u32 {
        refusal as u32
    }
}

// An answer as one number for C: 0, or the refusal + 256 × the index.
// By arithmetic and no From: docs/PROMISES.md names it, and it is one of any Result with a refusal.
pub fn code<T>(answer: &Result<T, Refused>) -> u32
    requires { Indexed answer.now }
    ensures { result ≡ code_of (verdict_of answer.now) }
{
    match answer {
        Ok(_) => 0,
        Err(refused) => u32::from(refused.refusal) + 256 * (refused.index as u32),
    }
}
