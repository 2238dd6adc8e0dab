// Next, and the call by its name.
#![tactic(auto, using(std::proofs::lemmas::Bool::Decides::nat_tests, crate::proofs::Facts::stored_in, crate::proofs::Facts::made_in), unfolding(machine::specs::Choice::refuse, machine::specs::Writer::next, machine::specs::Writer::next_job, machine::specs::Writer::next_work, machine::specs::Writer::turn_of))]

ghost use Rattle.std.specs.Prelude.{◌≡◌};
ghost use Rattle.cells.specs.Sized.{Sized};
ghost use Rattle.machine.specs.Turns.{by_row, written};
ghost use Rattle.machine.specs.Writer.{next, turn_of};

use crate::answering::{answer, next_answering};
use crate::creating::{create, next_creating};
use crate::slots::{copy, drop, page, read};
use crate::storing::{next_storing, store};
use cells::range::sound;
use machine::{Call, Record, Refusal, Row, Work, WriterTurn};

// By the job's work, of which there are three kinds.
pub fn next(
    rec: Record,
    row: Row,
    fields: &mut [u16],
    colours: &mut [u8],
) -> Result<WriterTurn, Refusal>
    requires { Sized rec.n fields.old colours.old }
    ensures { written (by_row row result) fields.new colours.new ≡ next rec row fields.old colours.old }
{
    if !sound(rec, row) {
        return Err(Refusal::BadNumber);
    }
    let Some(work) = row.job else {
        return Err(Refusal::NoTurn);
    };
    match work {
        Work::Answering(slot) => next_answering(row, colours, slot),
        Work::Storing(stored, plan) => next_storing(rec.n, row, fields, colours, stored, plan),
        Work::Creating(made) => Ok(next_creating(rec, row, colours, made)),
    }
}

// The turn that a writer's call is, by a match: the calls are closed, and the definition has the same cases.
pub fn turn_of(
    rec: Record,
    row: Row,
    fields: &mut [u16],
    colours: &mut [u8],
    call: Call,
) -> Result<WriterTurn, Refusal>
    requires { Sized rec.n fields.old colours.old }
    ensures { written (by_row row result) fields.new colours.new ≡ turn_of rec row fields.old colours.old call }
{
    match call {
        Call::Page(p, s) => page(rec, row, p, s),
        Call::Copy(r, s) => copy(rec, row, r, s),
        Call::Drop(r) => drop(rec, row, r),
        Call::Read(r, f, s) => read(rec, row, fields, r, f, s),
        Call::Store(r, f, q) => store(rec, row, r, f, q),
        Call::Create(s) => create(rec, row, fields, colours, s),
        Call::Answer => answer(rec, row),
        Call::Next => next(rec, row, fields, colours),
    }
}
