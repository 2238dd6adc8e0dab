// The census: six counts of a lent store. It changes nothing. Beside the call over the lent desk there is one for who keeps eight rows in an
// array; the census by value in `by_value` is for who lends a desk of another form.
#![tactic(auto, using(turn::proofs::Sizes::sized), unfolding(machine::specs::Choice::refuse, machine::specs::Choice::every, machine::specs::Store::fits, machine::specs::Census::census, machine::specs::Machine::outcome_of))]

ghost use Rattle.std.specs.Prelude.{take};
ghost use Rattle.machine.specs.Machine.{Meets, counting};
ghost use Rattle.machine.specs.Store.{parts};
ghost use Rattle.turn.specs.Lent.{own_rows};

pub mod by_value;
mod counts;
pub mod desk;
mod range;
mod reach;

use crate::by_value::census_core;
use crate::counts::counts_of;
use crate::range::in_range;
use cells::limits::record_fits;
use machine::{Counts, Record, Refusal, Row};
use turn::kept::rows_of;

// Sizes first (1), then what is in range (2), then the counts.
pub fn census(rec: &Record, desk: &[Row], fields: &[u16], colours: &[u8]) -> Result<Counts, Refusal>
    ensures { Meets counting
        (parts rec.now desk.now fields.now colours.now) result
        (parts rec.now desk.now fields.now colours.now) }
{
    if !record_fits(*rec, desk.len(), fields.len(), colours.len()) {
        return Err(Refusal::BadSize);
    }
    if !in_range(*rec, desk, fields, colours) {
        return Err(Refusal::BadNumber);
    }
    Ok(counts_of(*rec, desk, fields, colours))
}

// The census of kept rows, of which the first M are the desk: M may be anything here.
pub fn census_kept(
    rec: Record,
    rows: [Row; 8],
    fields: &[u16],
    colours: &[u8],
) -> Result<Counts, Refusal>
    ensures { Meets counting
        (parts rec (take (own_rows rec.m) rows) fields.now colours.now) result
        (parts rec (take (own_rows rec.m) rows) fields.now colours.now) }
{
    census_core(rec, rows_of(rec), rows, fields, colours)
}
