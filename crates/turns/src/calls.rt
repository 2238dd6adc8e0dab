// The calls over plain numbers: the record and the rows that a turn reads are taken out, the turn is made by value, and what it changed is
// written back. They stand beside the calls of `turn`, whose desk is rows: C's desk is words, and a turn makes rows of those alone that it reads.
#![tactic(auto, using(std::proofs::lemmas::Bool::Decides::nat_tests, crate::proofs::Ending::shapes), unfolding(machine::specs::Choice::every, crate::specs::Calls::shaped))]

ghost use Rattle.std.specs.Prelude.{◌≡◌, ◌%◌, length, take, replicate};
ghost use Rattle.machine.specs.Store.{fresh_row};
ghost use Rattle.turn.specs.Lent.{seen, own_rows};
ghost use Rattle.turns.specs.Plain.{desk_of, row_words, answer_number};
ghost use Rattle.turns.specs.Calls.{shaped, lent, result_of, start_by, write_by, collect_by, counted, census_by};

use crate::plain::{put_record, put_rest, put_row, record_of, row_at, short_of};
use cells::stage::posted;
use census::by_value::census_core;
use machine::{Answer, Call, Record, Refusal, Row};
use turn::by_value::{collect_core, start_core, write_core};
use turn::desk::{fresh_row, rows_read};

// A record of nine numbers and whole rows.
fn shaped(numbers: &[u32], desk: &[u16]) -> bool
    ensures { result ≡ shaped (length numbers.now) (length desk.now) }
{
    numbers.len() == 9 && desk.len() % 16 == 0
}

// Every row is written as start leaves it.
fn blank_rows(desk: &mut [u16])
    requires { length desk.old % 16 ≡ 0 }
    ensures { desk.new ≡ row_words (replicate (length (desk_of desk.old)) fresh_row) }
{
    // An index: of what is written through `chunks_mut` the proof would know no more than how much it is.
    for i in 0..desk.len() / 16 {
        put_row(desk, i, fresh_row());
    }
}

// Start.
pub fn start_words(
    numbers: &mut [u32],
    desk: &mut [u16],
    fields: &mut [u16],
    colours: &mut [u8],
    n: u32,
    g: u32,
    m: u32,
) -> Result<Answer, Refusal>
    ensures { result_of (answer_number result) (lent numbers.new desk.new fields.new colours.new)
        ≡ start_by n g m (lent numbers.old desk.old fields.old colours.old) }
{
    if !shaped(numbers, desk) {
        return Err(Refusal::BadSize);
    }
    let rec = start_core(n, g, m, desk.len() / 16, fields, colours)?;
    blank_rows(desk);
    put_record(numbers, rec);
    Ok(Answer::Done)
}

// A turn of writer w: only row w is read, and it is written if the turn is not refused.
pub fn write_words(
    numbers: &[u32],
    desk: &mut [u16],
    fields: &mut [u16],
    colours: &mut [u8],
    w: u32,
    call: Call,
) -> Result<Answer, Refusal>
    ensures { result_of (answer_number result) (lent numbers.now desk.new fields.new colours.new)
        ≡ write_by w call (lent numbers.now desk.old fields.old colours.old) }
{
    if !shaped(numbers, desk) {
        return Err(Refusal::BadSize);
    }
    let rec = record_of(numbers);
    let i = w as usize;
    let row = row_at(desk, i);
    let turn = write_core(rec, desk.len() / 16, w, row, fields, colours, call)?;
    put_row(desk, i, turn.row);
    Ok(turn.answer)
}

// Whether each of the rows that this turn of the collector reads has the posted status.
fn survey_words(desk: &[u16], rec: Record) -> Result<bool, Refusal>
    ensures { result ≡ seen rec (desk_of desk.now) }
{
    let (rows, _) = desk.as_chunks::<16>();
    let n = rows_read(rec, rows.len());
    let number = posted(rec.stage);
    // No early exit: two tests of every row are quicker than a way out of each.
    let mut fit = true;
    let mut same = true;
    for words in &rows[..n] {
        let status = short_of(words[0]);
        fit &= status <= 2;
        same &= status == number;
    }
    if fit {
        Ok(same)
    } else {
        Err(Refusal::BadNumber)
    }
}

// A turn of the collector: the record is written if the turn is not refused.
pub fn collect_words(
    numbers: &mut [u32],
    desk: &[u16],
    fields: &[u16],
    colours: &mut [u8],
) -> Result<Answer, Refusal>
    ensures { result_of (answer_number result) (lent numbers.new desk.now fields.now colours.new)
        ≡ collect_by (lent numbers.old desk.now fields.now colours.old) }
{
    if !shaped(numbers, desk) {
        return Err(Refusal::BadSize);
    }
    let rec = record_of(numbers);
    let seen = survey_words(desk, rec);
    let turn = collect_core(rec, desk.len() / 16, seen, fields, colours)?;
    put_rest(numbers, turn.rec);
    Ok(turn.answer)
}

// The rows of the desk, or the first eight where it has more, and fresh rows after them.
#[tactic(auto, using(crate::proofs::Gathering::gathered))]
fn gather(desk: &[u16]) -> [Row; 8]
    ensures { take (own_rows (length (desk_of desk.now))) result ≡ take (own_rows (length (desk_of desk.now))) (desk_of desk.now) }
{
    std::array::from_fn(|i| row_at(desk, i))
}

// The census: its six counts are written if it is not refused.
pub fn census_words(
    numbers: &[u32],
    desk: &[u16],
    fields: &[u16],
    colours: &[u8],
    counts: &mut [u32],
) -> Result<Answer, Refusal>
    ensures { counted (answer_number result) counts.new
        ≡ census_by (lent numbers.now desk.now fields.now colours.now) counts.old }
{
    if !shaped(numbers, desk) || counts.len() != 6 {
        return Err(Refusal::BadSize);
    }
    let rec = record_of(numbers);
    let own = gather(desk);
    let c = census_core(rec, desk.len() / 16, own, fields, colours)?;
    counts.copy_from_slice(&[
        c.free.into(),
        c.white.into(),
        c.gray.into(),
        c.black.into(),
        c.held.into(),
        c.floating.into(),
    ]);
    Ok(Answer::Done)
}
