// The calls by value: sizes first (1), then the writer (3), then the turn.
#![tactic(auto, using(std::proofs::lemmas::Bool::Decides::nat_tests, crate::proofs::Sizes::sizes), unfolding(machine::specs::Choice::refuse, crate::specs::Lent::writing, crate::specs::Lent::collecting, crate::specs::Lent::beginning))]

ghost use Rattle.std.specs.Prelude.{◌≡◌};
ghost use Rattle.machine.specs.Turns.{by_row, by_record, written, collected};
ghost use Rattle.turn.specs.Lent.{writing, collecting, begun, beginning};

use cells::NONE;
use cells::limits::{record_fits, sizes_ok};
use collector::collector_turn;
use machine::{Call, CollectorTurn, Record, Refusal, Row, WriterTurn};
use writer::turn_of;

pub fn write_core(
    rec: Record,
    rows: usize,
    w: u32,
    row: Row,
    fields: &mut [u16],
    colours: &mut [u8],
    call: Call,
) -> Result<WriterTurn, Refusal>
    ensures { written (by_row row result) fields.new colours.new ≡ writing rec rows w row fields.old colours.old call }
{
    if !record_fits(rec, rows, fields.len(), colours.len()) {
        return Err(Refusal::BadSize);
    }
    if u32::from(rec.m) <= w {
        return Err(Refusal::NoSuch);
    }
    turn_of(rec, row, fields, colours, call)
}

pub fn collect_core(
    rec: Record,
    rows: usize,
    seen: Result<bool, Refusal>,
    fields: &[u16],
    colours: &mut [u8],
) -> Result<CollectorTurn, Refusal>
    ensures { collected (by_record rec result) colours.new ≡ collecting rec rows seen fields.now colours.old }
{
    if !record_fits(rec, rows, fields.len(), colours.len()) {
        return Err(Refusal::BadSize);
    }
    collector_turn(rec, seen, fields, colours)
}

// The fields and colours are filled; the fresh record. The rows are the caller's to fill.
pub fn start_core(
    n: u32,
    g: u32,
    m: u32,
    rows: usize,
    fields: &mut [u16],
    colours: &mut [u8],
) -> Result<Record, Refusal>
    ensures { begun result fields.new colours.new ≡ beginning n g m rows fields.old colours.old }
{
    if !sizes_ok(n, g, m, rows, fields.len(), colours.len()) {
        return Err(Refusal::BadSize);
    }
    fields.fill(NONE);
    // Cells free, but for the pages, which are white.
    colours.fill(0);
    colours[..g as usize].fill(1);
    Ok(Record::fresh(n as u16, g as u16, m as u16))
}
