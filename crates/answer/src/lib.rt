#![tactic(auto)]

ghost use Rattle.std.specs.Prelude.{◌≡◌};
ghost use Rattle.answer.specs.Answers.{reply_of, number_of, refusal_of, answer_of, checked_of};

// What a call answers: document 01's number, and the value that comes with it. C reads it as two 64-bit words, and so it is no enum.
#[repr(C)]
#[derive(Clone, Copy)]
pub struct Answer {
    pub number: u64,
    pub value: u64,
}

impl Answer {
    pub fn done(value: u64) -> Self
        ensures { reply_of result ≡ record { number = 0; value = value } }
    {
        Answer { number: 0, value }
    }

    pub fn refused(number: u64) -> Self
        ensures { reply_of result ≡ record { number = number; value = 0 } }
    {
        Answer { number, value: 0 }
    }
}

// Why a call refuses, under the names and numbers of include/wall.h. 11 is never given.
#[derive(Clone, Copy, Debug, PartialEq, Eq)]
pub enum Refusal {
    BadShape = 1,
    BadWidth = 2,
    BadBits = 3,
    BadLimit = 4,
    BadFull = 5,
    // Of the words to raise a wall in, or of an image's bytes.
    BadLength = 6,
    BadHeader = 7,
    NoFlow = 8,
    Unsound = 9,
    AtLimit = 10,
    NoFull = 12,
    UnsoundWall = 13,
    ListShort = 14,
    BadSpread = 15,
}

impl Refusal {
    // No `From` for `u64`, which would not say what number it is.
    pub fn number(self) -> u64
        ensures { result ≡ number_of self }
    {
        self as u64
    }
}

// What the check finds.
#[derive(Clone, Copy, Debug, PartialEq, Eq)]
pub enum Fault {
    BadHeader,
    // The lowest bucket that is not sound.
    Unsound(u64),
    UnsoundWall,
}

impl From<Fault> for Refusal {
    ghost from_gives = { λ f r. r ≡ refusal_of f };

    fn from(found: Fault) -> Refusal {
        match found {
            Fault::BadHeader => Refusal::BadHeader,
            Fault::Unsound(_) => Refusal::Unsound,
            Fault::UnsoundWall => Refusal::UnsoundWall,
        }
    }
}

impl From<Result<u64, Refusal>> for Answer {
    ghost from_gives = { λ r a. a ≡ answer_of r };

    fn from(call: Result<u64, Refusal>) -> Answer {
        match call {
            Ok(value) => Answer::done(value),
            Err(refusal) => Answer::refused(refusal.number()),
        }
    }
}

impl From<Result<(), Fault>> for Answer {
    ghost from_gives = { λ r a. a ≡ checked_of r };

    fn from(check: Result<(), Fault>) -> Answer {
        match check {
            Ok(()) => Answer::done(0),
            Err(Fault::Unsound(bucket)) => Answer {
                number: Refusal::Unsound.number(),
                value: bucket,
            },
            Err(found) => Answer::refused(Refusal::from(found).number()),
        }
    }
}
