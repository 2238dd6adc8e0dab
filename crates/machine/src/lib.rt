// The types that the machine of turns is about. The machine itself is in specs/.
#![tactic(auto)]

ghost use Rattle.std.specs.Prelude.{◌≡◌, Some};
ghost use Rattle.machine.specs.Answer.{number, word_of, refusal_text};
ghost use Rattle.machine.specs.Store.{fresh_record, fresh_row};

use std::error::Error;
use std::fmt;

// An empty field or slot, in the lent memory a number.
pub const NONE: u16 = 65535;

// The collector's record. Stage, part and found are numbers, not enums, as a row's status and slots, the fields and the colours are:
// this is lent memory, in which any number may stand, and one that is out of range is refused.
#[derive(Clone, Copy)]
pub struct Record {
    pub n: u16,
    pub g: u16,
    pub m: u16,
    pub stage: u8,
    pub place: u16,
    pub part: u8,
    pub hold: u16,
    pub found: u8,
    pub count: u32,
}

impl Record {
    // At rest, for N, g and M as given.
    pub fn fresh(n: u16, g: u16, m: u16) -> Record
        ensures { result ≡ fresh_record n g m }
    {
        Record {
            n,
            g,
            m,
            stage: 0,
            place: 0,
            part: 0,
            hold: NONE,
            found: 0,
            count: 0,
        }
    }
}

// What a store carries: field `field` of cell `cell` is to hold `new`; `old` is what it held, none until it is read.
#[derive(Clone, Copy)]
pub struct Stored {
    pub cell: u16,
    pub field: u8,
    pub new: u16,
    pub old: u16,
}

// A store's plan and its next turn. Full: read the old value, gray it, gray the new one, write. Traced: read old, gray
// old, write. Bare: write.
#[derive(Clone, Copy)]
pub enum Plan {
    FullRead,
    FullOld,
    FullNew,
    FullWrite,
    TracedRead,
    TracedOld,
    TracedWrite,
    BareWrite,
}

// What a creation's look has decided. `Ahead`: the look is still to come.
#[derive(Clone, Copy)]
pub enum Look {
    Ahead,
    Keep,
    White,
}

// What a creation carries: the new cell, and the slot that it goes to.
#[derive(Clone, Copy)]
pub struct Made {
    pub slot: u8,
    pub cell: u16,
    pub look: Look,
}

// A job's work: answering (the next slot), storing or creating.
#[derive(Clone, Copy)]
pub enum Work {
    Answering(u8),
    Storing(Stored, Plan),
    Creating(Made),
}

// A writer's row of the desk. An idle writer has no job.
#[derive(Clone, Copy)]
pub struct Row {
    pub status: u8,
    pub slots: [u16; 8],
    pub job: Option<Work>,
}

impl Row {
    // Idle, with status 0 and empty slots.
    pub fn fresh() -> Row
        ensures { result ≡ fresh_row }
    {
        Row {
            status: 0,
            slots: [NONE; 8],
            job: None,
        }
    }
}

// A writer's call, with the numbers that follow the writer's own: Page(p, s), Copy(r, s), Drop(r), Read(r, f, s),
// Store(r, f, q), Create(s), Answer, Next.
#[derive(Clone, Copy)]
pub enum Call {
    Page(u32, u32),
    Copy(u32, u32),
    Drop(u32),
    Read(u32, u32, u32),
    Store(u32, u32, u32),
    Create(u32),
    Answer,
    Next,
}

// What a call answers that is not refused. `More`: the job is unfinished.
#[derive(Clone, Copy, Debug, PartialEq, Eq)]
pub enum Answer {
    Done,
    More,
    Worked,
    Waited,
}

impl fmt::Display for Answer {
    ghost output = { λ answer. Some (word_of answer) };

    fn fmt<W: fmt::Write>(&self, f: &mut fmt::Formatter<W>) -> fmt::Result {
        match self {
            Answer::Done => write!(f, "done"),
            Answer::More => write!(f, "more"),
            Answer::Worked => write!(f, "worked"),
            Answer::Waited => write!(f, "waited"),
        }
    }
}

// Why a call is refused, each with its number.
#[derive(Clone, Copy, Debug, PartialEq, Eq)]
pub enum Refusal {
    BadSize = 1,
    BadNumber = 2,
    NoSuch = 3,
    Busy = 4,
    NoTurn = 5,
    EmptySlot = 6,
    Full = 7,
    Unreadable = 8,
}

impl Refusal {
    pub fn number(self) -> u8
        ensures { result ≡ number self }
    {
        self as u8
    }
}

impl fmt::Display for Refusal {
    ghost output = { λ refusal. Some (refusal_text refusal) };

    fn fmt<W: fmt::Write>(&self, f: &mut fmt::Formatter<W>) -> fmt::Result {
        write!(f, "refused {}", self.number())
    }
}

impl Error for Refusal {}

// What a census counts.
#[derive(Clone, Copy)]
pub struct Counts {
    pub free: u16,
    pub white: u16,
    pub gray: u16,
    pub black: u16,
    pub held: u16,
    pub floating: u16,
}

// A writer's turn that is not refused: the answer, and the row after it.
#[derive(Clone, Copy)]
pub struct WriterTurn {
    pub answer: Answer,
    pub row: Row,
}

// A collector's turn that is not refused: the answer, and the record after it.
#[derive(Clone, Copy)]
pub struct CollectorTurn {
    pub answer: Answer,
    pub rec: Record,
}
