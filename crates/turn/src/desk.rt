// The desk behind its reference: a row taken out, a row put back, and the statuses seen.
#![tactic(auto, using(std::proofs::lemmas::Bool::Decides::nat_tests, crate::proofs::Seeing::rows_read_le), unfolding(machine::specs::Choice::every, machine::specs::Collector::has_status, crate::specs::Lent::waits, crate::specs::Lent::rows_read, machine::specs::Range::status_ok))]

ghost use Rattle.std.specs.Prelude.{◌≡◌, slice_index_or, slice_set};
ghost use Rattle.machine.specs.Store.{fresh_row};
ghost use Rattle.turn.specs.Lent.{waits, rows_read, seen};

use cells::range::status_ok;
use cells::stage::posted;
use machine::{Record, Refusal, Row};

pub fn fresh_row() -> Row
    ensures { result ≡ fresh_row }
{
    Row::fresh()
}

// Row i, or a fresh one where the desk has no row i.
pub fn row_or(desk: &[Row], i: usize) -> Row
    ensures { result ≡ slice_index_or desk.now i fresh_row }
{
    desk.get(i).copied().unwrap_or(fresh_row())
}

// Row i is written, where the desk has one.
pub fn put_row(desk: &mut [Row], i: usize, row: Row)
    ensures { desk.new ≡ slice_set desk.old i row }
{
    // An index: of what is written through a slice's `get_mut` only the length is known to the proof.
    if i < desk.len() {
        desk[i] = row;
    }
}

// Whether this turn of the collector is a waiting test: by the stage, a number of lent memory.
fn waits(rec: Record) -> bool
    ensures { result ≡ waits rec }
{
    match rec.stage {
        1 | 2 => true,
        3 => rec.g <= rec.place,
        _ => false,
    }
}

// How many rows it reads.
pub fn rows_read(rec: Record, rows: usize) -> usize
    ensures { result ≡ rows_read rec rows }
{
    if waits(rec) { rows } else { 0 }
}

// What a waiting test finds in the statuses of the rows that this turn reads.
pub fn survey_desk(desk: &[Row], rec: Record) -> Result<bool, Refusal>
    ensures { result ≡ seen rec desk.now }
{
    let number = posted(rec.stage);
    // No early exit, and one pass: a way out of each row costs more than its two tests.
    let mut fit = true;
    let mut same = true;
    for row in &desk[..rows_read(rec, desk.len())] {
        fit &= status_ok(*row);
        same &= row.status == number;
    }
    if fit {
        Ok(same)
    } else {
        Err(Refusal::BadNumber)
    }
}
