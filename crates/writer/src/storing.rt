// Store slot q into field f of the cell in slot r: five, four or two turns, by its plan.
#![tactic(auto, using(std::proofs::lemmas::Bool::Decides::nat_tests), unfolding(machine::specs::Choice::refuse, machine::specs::Parts::with_job, machine::specs::Storing::plan_of, machine::specs::Storing::store_cell, machine::specs::Storing::store_slots, machine::specs::Storing::store, machine::specs::Storing::store_read, machine::specs::Storing::store_gray, machine::specs::Storing::store_write, machine::specs::Storing::next_storing))]

ghost use Rattle.std.specs.Prelude.{◌≡◌, ℕ, List, ◌+◌, ◌*◌, ◌<◌, length, None, Ok};
ghost use Rattle.machine.specs.Storing.{plan_of, store_cell, store_slots, store, store_read, store_gray, next_storing};
ghost use Rattle.machine.specs.Parts.{with_job, with_field};
ghost use Rattle.machine.specs.Turns.{by_row, done, written};

use crate::rows::{admitted, done, more};
use cells::NONE;
use cells::gray::{gray, gray_ok};
use cells::range::value_ok;
use cells::stage::tracing;
use machine::{Plan, Record, Refusal, Row, Stored, Work, WriterTurn};

fn plan_of(rec: Record, row: Row) -> Plan
    ensures { result ≡ plan_of rec row }
{
    if row.status != 0 {
        return Plan::FullRead;
    }
    if tracing(rec.stage) {
        return Plan::TracedRead;
    }
    Plan::BareWrite
}

fn store_cell(row: Row, cell: u16, f: u32, value: u16, plan: Plan) -> WriterTurn
    requires { f < 4 }
    ensures { by_row row (Ok result) ≡ store_cell row cell f value plan }
{
    let stored = Stored {
        cell,
        field: f as u8,
        new: value,
        old: NONE,
    };
    more(row, Work::Storing(stored, plan))
}

fn store_slots(rec: Record, row: Row, r: u32, f: u32, q: u32) -> Result<WriterTurn, Refusal>
    requires { (r < 8) × (q < 8) × (f < 4) }
    ensures { by_row row result ≡ store_slots rec row r f q }
{
    let cell = row.slots[r as usize];
    if cell == NONE {
        return Err(Refusal::EmptySlot);
    }
    let value = row.slots[q as usize];
    Ok(store_cell(row, cell, f, value, plan_of(rec, row)))
}

pub fn store(rec: Record, row: Row, r: u32, f: u32, q: u32) -> Result<WriterTurn, Refusal>
    ensures { by_row row result ≡ store rec row r f q }
{
    if 8 <= r || 8 <= q || 4 <= f {
        return Err(Refusal::NoSuch);
    }
    admitted(rec, row)?;
    store_slots(rec, row, r, f, q)
}

fn store_read(
    n: u16,
    row: Row,
    fields: &[u16],
    stored: Stored,
    plan: Plan,
) -> Result<WriterTurn, Refusal>
    requires { stored.cell * 4 + stored.field < length fields.now }
    ensures { (colours : List ℕ) → written (by_row row result) fields.now colours ≡ store_read n row fields.now colours stored plan }
{
    let value = fields[stored.cell as usize * 4 + stored.field as usize];
    if !value_ok(n, value) {
        return Err(Refusal::BadNumber);
    }
    Ok(more(
        row,
        Work::Storing(
            Stored {
                old: value,
                ..stored
            },
            plan,
        ),
    ))
}

fn store_gray(
    row: Row,
    colours: &mut [u8],
    value: u16,
    stored: Stored,
    plan: Plan,
) -> Result<WriterTurn, Refusal>
    ensures { (fields : List ℕ) → written (by_row row result) fields colours.new ≡ store_gray row fields colours.old value stored plan }
{
    if !gray_ok(colours, value) {
        return Err(Refusal::BadNumber);
    }
    gray(colours, value);
    Ok(more(row, Work::Storing(stored, plan)))
}

fn store_write(row: Row, fields: &mut [u16], stored: Stored) -> WriterTurn
    requires { stored.cell * 4 + stored.field < length fields.old }
    ensures turn { by_row row (Ok result) ≡ done (with_job row None) }
    ensures field { fields.new ≡ with_field fields.old stored.cell stored.field stored.new }
{
    fields[stored.cell as usize * 4 + stored.field as usize] = stored.new;
    done(Row { job: None, ..row })
}

// The plan's next turn, by a match: the plans are closed, and the definition has the same cases.
pub fn next_storing(
    n: u16,
    row: Row,
    fields: &mut [u16],
    colours: &mut [u8],
    stored: Stored,
    plan: Plan,
) -> Result<WriterTurn, Refusal>
    requires { stored.cell * 4 + stored.field < length fields.old }
    ensures { written (by_row row result) fields.new colours.new ≡ next_storing n row fields.old colours.old stored plan }
{
    match plan {
        Plan::FullRead => store_read(n, row, fields, stored, Plan::FullOld),
        Plan::FullOld => store_gray(row, colours, stored.old, stored, Plan::FullNew),
        Plan::FullNew => store_gray(row, colours, stored.new, stored, Plan::FullWrite),
        Plan::TracedRead => store_read(n, row, fields, stored, Plan::TracedOld),
        Plan::TracedOld => store_gray(row, colours, stored.old, stored, Plan::TracedWrite),
        Plan::FullWrite | Plan::TracedWrite | Plan::BareWrite => {
            Ok(store_write(row, fields, stored))
        }
    }
}
