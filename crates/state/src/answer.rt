// What an event answers, and why it is refused, by document 01's words and numbers.
ghost use Rattle.std.specs.Prelude.{◌≡◌};
ghost use Rattle.state.specs.Answer.{refusal_number, answer_text};

use word::ThreadNumber;

#[derive(Clone, Copy)]
pub enum Answer {
    Begun,
    Went,
    Done,
    Yes,
    No,
}

#[derive(Clone, Copy)]
pub enum Refusal {
    UnknownCode = 1,
    NoThread = 2,
    InsideCall = 3,
    WrongHolding = 4,
    NotInCall = 5,
    NoToken = 6,
    CannotFail = 7,
    Damaged = 8,
}

// An accepted event's answer, with the thread it woke.
#[derive(Clone, Copy)]
pub struct Accepted {
    pub answer: Answer,
    pub woken: Option<ThreadNumber>,
}

pub type Reply = Result<Accepted, Refusal>;

// An answer's word in ASCII, and how many of the bytes it has; the others are 0. No `&'static str`: a clause tells of
// one the bytes alone.
#[derive(Clone, Copy)]
pub struct Text {
    pub bytes: [u8; 5],
    pub length: usize,
}

impl Refusal {
    // Public, with document 01's number in its clause, so no From.
    pub fn number(self) -> u8
        ensures { result ≡ refusal_number self }
    {
        self as u8
    }
}

impl Answer {
    pub fn text(self) -> Text
        ensures { result ≡ answer_text self }
    {
        let (bytes, length) = match self {
            Answer::Begun => (*b"begun", 5),
            Answer::Went => (*b"went\0", 4),
            Answer::Done => (*b"done\0", 4),
            Answer::Yes => (*b"yes\0\0", 3),
            Answer::No => (*b"no\0\0\0", 2),
        };
        Text { bytes, length }
    }
}
