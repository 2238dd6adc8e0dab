// The public calls: start, write, collect. Each takes any numbers and any lent memory. The record, the desk, the fields and the colours
// are lent one by one, since a site keeps each where it likes; the calls in `kept` are for who keeps eight rows in an array, and the calls by
// value in `by_value` are for who lends a desk of another form.
#![tactic(auto)]

ghost use Rattle.std.specs.Prelude.{◌≡◌};
ghost use Rattle.machine.specs.Machine.{Meets, turning, starting, writer, collector};
ghost use Rattle.machine.specs.Store.{parts};

pub mod by_value;
pub mod desk;
pub mod kept;

use crate::by_value::{collect_core, start_core, write_core};
use crate::desk::{fresh_row, put_row, row_or, survey_desk};
use machine::{Answer, Call, Record, Refusal, Row};

// Start: everything is filled.
pub fn start(
    n: u32,
    g: u32,
    m: u32,
    rec: &mut Record,
    desk: &mut [Row],
    fields: &mut [u16],
    colours: &mut [u8],
) -> Result<Answer, Refusal>
    ensures { Meets (starting n g m)
        (parts rec.old desk.old fields.old colours.old) result
        (parts rec.new desk.new fields.new colours.new) }
{
    let fresh = start_core(n, g, m, desk.len(), fields, colours)?;
    desk.fill(fresh_row());
    *rec = fresh;
    Ok(Answer::Done)
}

// A turn of writer w: its row is taken out, the turn is made by value, and the row is put back.
pub fn write(
    rec: &Record,
    desk: &mut [Row],
    fields: &mut [u16],
    colours: &mut [u8],
    w: u32,
    call: Call,
) -> Result<Answer, Refusal>
    ensures { Meets (turning (writer w call))
        (parts rec.now desk.old fields.old colours.old) result
        (parts rec.now desk.new fields.new colours.new) }
{
    let row = row_or(desk, w as usize);
    let turn = write_core(*rec, desk.len(), w, row, fields, colours, call)?;
    put_row(desk, w as usize, turn.row);
    Ok(turn.answer)
}

// A turn of the collector: the record is taken out, the turn is made by value, and the record is put back.
pub fn collect(
    rec: &mut Record,
    desk: &[Row],
    fields: &[u16],
    colours: &mut [u8],
) -> Result<Answer, Refusal>
    ensures { Meets (turning collector)
        (parts rec.old desk.now fields.now colours.old) result
        (parts rec.new desk.now fields.now colours.new) }
{
    let seen = survey_desk(desk, *rec);
    let turn = collect_core(*rec, desk.len(), seen, fields, colours)?;
    *rec = turn.rec;
    Ok(turn.answer)
}
