// Create into slot s: take, look, finish. Colours are the numbers that lent memory holds.
#![tactic(auto, using(std::proofs::lemmas::Bool::Decides::nat_tests, crate::proofs::Facts::free_in), unfolding(machine::specs::Choice::every, machine::specs::Range::colour_ok, crate::specs::Used::used, machine::specs::Creating::decided, machine::specs::Creating::look, machine::specs::Creating::take, machine::specs::Creating::take_cell, machine::specs::Creating::create, machine::specs::Creating::next_creating, machine::specs::Choice::refuse))]

ghost use Rattle.std.specs.Prelude.{◌≡◌, ℕ, List, ◌+◌, ◌*◌, ◌<◌, ◌≤◌, length, Ok};
ghost use Rattle.cells.specs.Sized.{Sized};
ghost use Rattle.machine.specs.Choice.{all};
ghost use Rattle.machine.specs.Creating.{lowest_free, emptied, take_cell, create, decided, look, finished, next_creating};
ghost use Rattle.machine.specs.Turns.{by_row, written};
ghost use Rattle.writer.specs.Used.{used, Past};

use crate::rows::{admitted, done, filled, more};
use cells::NONE;
use cells::range::both;
use cells::stage::hand;
use machine::{Look, Made, Record, Refusal, Row, Work, WriterTurn};

// The colour of a cell in use.
fn used(colour: u8) -> bool
    ensures { result ≡ used colour }
{
    matches!(colour, 1..=3)
}

// All these cells are in use.
fn all_used(colours: &[u8]) -> bool
    ensures { result ≡ all used colours.now }
{
    colours.iter().fold(true, |good, b| both(good, used(*b)))
}

// Stretches of 32 cells in use are passed over.
fn past_used(colours: &[u8]) -> usize
    requires { length colours.now ≤ 4096 }
    ensures { Past colours.now result }
{
    colours.chunks_exact(32).take_while(|c| all_used(c)).count() * 32
}

// Colours are read upward, to the first free cell.
#[tactic(auto, using(std::proofs::lemmas::Bool::Decides::nat_tests, crate::proofs::Frees::frees))]
fn lowest_free(colours: &[u8]) -> Result<u16, Refusal>
    requires { length colours.now ≤ 4096 }
    ensures { result ≡ lowest_free 0 colours.now }
{
    for (i, b) in colours.iter().enumerate().skip(past_used(colours)) {
        match *b {
            0 => return Ok(i as u16),
            1..=3 => {}
            _ => return Err(Refusal::BadNumber),
        }
    }
    Err(Refusal::Full)
}

fn empty_cell(fields: &mut [u16], cell: u16)
    requires { cell * 4 + 3 < length fields.old }
    ensures { fields.new ≡ emptied fields.old cell }
{
    let start = cell as usize * 4;
    fields[start..start + 4].fill(NONE);
}

fn take_cell(row: Row, fields: &mut [u16], colours: &mut [u8], s: u32, cell: u16) -> WriterTurn
    requires fields_bound { cell * 4 + 3 < length fields.old }
    requires colours_bound { cell < length colours.old }
    requires slot_bound { s < 8 }
    ensures { written (by_row row (Ok result)) fields.new colours.new ≡ take_cell row fields.old colours.old s cell }
{
    empty_cell(fields, cell);
    colours[cell as usize] = 3;
    let made = Made {
        slot: s as u8,
        cell,
        look: Look::Ahead,
    };
    more(row, Work::Creating(made))
}

pub fn create(
    rec: Record,
    row: Row,
    fields: &mut [u16],
    colours: &mut [u8],
    s: u32,
) -> Result<WriterTurn, Refusal>
    requires { Sized rec.n fields.old colours.old }
    ensures { written (by_row row result) fields.new colours.new ≡ create rec row fields.old colours.old s }
{
    if 8 <= s {
        return Err(Refusal::NoSuch);
    }
    admitted(rec, row)?;
    let cell = lowest_free(colours)?;
    Ok(take_cell(row, fields, colours, s, cell))
}

fn decided(rec: Record, row: Row, cell: u16) -> Look
    ensures { result ≡ decided rec row cell }
{
    if row.status != 0 || cell < hand(rec) {
        Look::White
    } else {
        Look::Keep
    }
}

fn look_turn(rec: Record, row: Row, made: Made) -> WriterTurn
    ensures { by_row row (Ok result) ≡ look rec row made }
{
    let look = decided(rec, row, made.cell);
    more(row, Work::Creating(Made { look, ..made }))
}

fn finish(row: Row, made: Made) -> WriterTurn
    requires { made.slot < 8 }
    ensures { by_row row (Ok result) ≡ finished row made }
{
    done(filled(row, made.slot, made.cell))
}

// By a match on the look, as the definition has it.
pub fn next_creating(rec: Record, row: Row, colours: &mut [u8], made: Made) -> WriterTurn
    requires cell_in_bounds { made.cell < length colours.old }
    requires slot_bound { made.slot < 8 }
    ensures { (fields : List ℕ) → written (by_row row (Ok result)) fields colours.new ≡ next_creating rec row fields colours.old made made.look }
{
    match made.look {
        Look::Ahead => look_turn(rec, row, made),
        Look::Keep => finish(row, made),
        Look::White => {
            colours[made.cell as usize] = 1;
            finish(row, made)
        }
    }
}
