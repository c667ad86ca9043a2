// A worker's fate. It is kept as its code, by which those who wait are found: every number of 64 bits is the code of one.
ghost use Rattle.std.specs.Prelude.{◌≡◌, ◌<◌, ◌^◌};
ghost use Rattle.rules.specs.Codes.{fate_code, fate_of};

use format::fates::{ASLEEP, AT_BARRIER, EXITED, FAILED, GOING, ON_CONDITION};

#[derive(Clone, Copy)]
pub enum Fate {
    Going,
    Exited,
    Failed,
    Asleep,
    OnCondition(u64),
    AtBarrier(u64),
}

impl Fate {
    // A method and no From: a fate has two numbers, its code and the report's byte, and the name says which.
    pub fn code(self) -> u64
        requires { fate_code (fate_of self) < 2 ^ 64 }
        ensures { result ≡ fate_code (fate_of self) }
    {
        match self {
            Fate::Going => GOING,
            Fate::Exited => EXITED,
            Fate::Failed => FAILED,
            Fate::Asleep => ASLEEP,
            Fate::OnCondition(c) => ON_CONDITION + 2 * c,
            Fate::AtBarrier(b) => AT_BARRIER + 2 * b,
        }
    }
}
