// Answer: one turn, or ten.
#![tactic(auto, using(std::proofs::lemmas::Bool::Decides::nat_tests), unfolding(machine::specs::Choice::refuse, machine::specs::Parts::with_status, machine::specs::Parts::with_job, machine::specs::Answering::answer_to, machine::specs::Answering::answer, machine::specs::Answering::next_answering))]

ghost use Rattle.std.specs.Prelude.{◌≡◌, ℕ, List};
ghost use Rattle.machine.specs.Answering.{answer_to, answer, next_answering};
ghost use Rattle.machine.specs.Turns.{by_row, written};

use crate::rows::{admitted, done, more};
use cells::gray::{gray, gray_ok};
use cells::stage::posted;
use machine::{Record, Refusal, Row, Work, WriterTurn};

fn answer_to(number: u8, row: Row) -> Result<WriterTurn, Refusal>
    ensures { by_row row result ≡ answer_to number row }
{
    if row.status == number {
        return Err(Refusal::NoTurn);
    }
    if number == 0 {
        return Ok(more(row, Work::Answering(0)));
    }
    Ok(done(Row {
        status: number,
        ..row
    }))
}

pub fn answer(rec: Record, row: Row) -> Result<WriterTurn, Refusal>
    ensures { by_row row result ≡ answer rec row }
{
    admitted(rec, row)?;
    answer_to(posted(rec.stage), row)
}

pub fn next_answering(row: Row, colours: &mut [u8], slot: u8) -> Result<WriterTurn, Refusal>
    ensures { (fields : List ℕ) → written (by_row row result) fields colours.new ≡ next_answering row fields colours.old slot }
{
    if 8 <= slot {
        return Ok(done(Row {
            status: 0,
            job: None,
            ..row
        }));
    }
    let value = row.slots[slot as usize];
    if !gray_ok(colours, value) {
        return Err(Refusal::BadNumber);
    }
    gray(colours, value);
    Ok(more(row, Work::Answering(slot + 1)))
}
