// Beside the lent calls, for a record and rows by value: M may be anything here, and no more than the eight rows are
// lent. Arrays by value, since memory is fixed.
#![tactic(auto, using(std::proofs::lemmas::Bool::Decides::nat_tests, crate::proofs::OwnRows::own_few), unfolding(crate::specs::Lent::own_rows))]

ghost use Rattle.std.specs.Prelude.{◌≡◌, take, drop};
ghost use Rattle.machine.specs.Machine.{Meets, turning, starting, writer, collector};
ghost use Rattle.machine.specs.Store.{parts};
ghost use Rattle.turn.specs.Lent.{own_rows};

use crate::{collect, start, write};
use machine::{Answer, Call, Record, Refusal, Row};

// What a call on kept rows gives: the answer, and the record and the rows after it.
#[derive(Clone, Copy)]
pub struct Kept {
    pub answer: Result<Answer, Refusal>,
    pub rec: Record,
    pub rows: [Row; 8],
}

pub fn own_rows(m: u32) -> usize
    ensures { result ≡ own_rows m }
{
    (m as usize).min(8)
}

pub fn rows_of(rec: Record) -> usize
    ensures { result ≡ own_rows rec.m }
{
    own_rows(rec.m.into())
}

pub fn start_kept(
    n: u32,
    g: u32,
    m: u32,
    mut rec: Record,
    mut rows: [Row; 8],
    fields: &mut [u16],
    colours: &mut [u8],
) -> Kept
    ensures { (Meets (starting n g m)
        (parts rec (take (own_rows m) rows) fields.old colours.old) result.answer
        (parts result.rec (take (own_rows m) result.rows) fields.new colours.new)) × (drop (own_rows m) result.rows ≡ drop (own_rows m) rows) }
{
    let answer = start(n, g, m, &mut rec, &mut rows[..own_rows(m)], fields, colours);
    Kept { answer, rec, rows }
}

pub fn write_kept(
    rec: Record,
    mut rows: [Row; 8],
    fields: &mut [u16],
    colours: &mut [u8],
    w: u32,
    call: Call,
) -> Kept
    ensures { (Meets (turning (writer w call))
        (parts rec (take (own_rows rec.m) rows) fields.old colours.old) result.answer
        (parts result.rec (take (own_rows rec.m) result.rows) fields.new colours.new)) × (drop (own_rows rec.m) result.rows ≡ drop (own_rows rec.m) rows) }
{
    let answer = write(&rec, &mut rows[..rows_of(rec)], fields, colours, w, call);
    Kept { answer, rec, rows }
}

pub fn collect_kept(mut rec: Record, rows: [Row; 8], fields: &[u16], colours: &mut [u8]) -> Kept
    ensures { (Meets (turning collector)
        (parts rec (take (own_rows rec.m) rows) fields.now colours.old) result.answer
        (parts result.rec (take (own_rows rec.m) result.rows) fields.now colours.new)) × (result.rows ≡ rows) }
{
    let own = rows_of(rec);
    let answer = collect(&mut rec, &rows[..own], fields, colours);
    Kept { answer, rec, rows }
}
