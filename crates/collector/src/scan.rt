// Stage 4, by the part. Colours are the numbers that lent memory holds.
#![tactic(auto, using(std::proofs::lemmas::Bool::Decides::nat_tests), unfolding(machine::specs::Choice::refuse, machine::specs::Choice::every, machine::specs::Collector::end_pass, machine::specs::Collector::scan_place, machine::specs::Collector::scan_hold, machine::specs::Collector::scan_gray, machine::specs::Collector::scan_close, machine::specs::Collector::scanning, machine::specs::Range::colour_ok, machine::specs::Range::part_ok))]

ghost use Rattle.std.specs.Prelude.{◌≡◌, ℕ, List, true, ◌*◌, ◌<◌, length, Ok};
ghost use Rattle.collector.specs.Ready.{Ready};
ghost use Rattle.machine.specs.Collector.{end_pass, scan_place, scan_hold, scan_gray, scan_close, scanning};
ghost use Rattle.machine.specs.Range.{part_ok};
ghost use Rattle.machine.specs.Turns.{by_record, collected};

use crate::turns::{entered, stepped, worked};
use cells::NONE;
use cells::gray::{gray, gray_ok};
use cells::range::{colour_ok, value_ok};
use machine::{CollectorTurn, Record, Refusal};

fn end_pass(rec: Record) -> CollectorTurn
    requires { rec.count < 4294967295 }
    ensures { by_record rec (Ok result) ≡ end_pass rec }
{
    if rec.found == 0 {
        return entered(rec, 5);
    }
    worked(Record {
        place: 0,
        found: 0,
        ..rec
    })
}

fn scan_place(rec: Record, colours: &mut [u8]) -> Result<CollectorTurn, Refusal>
    requires fits { rec.n ≡ length colours.old }
    requires room { rec.count < 4294967295 }
    ensures { collected (by_record rec result) colours.new ≡ scan_place rec colours.old }
{
    if rec.n <= rec.place {
        return Ok(end_pass(rec));
    }
    let b = colours[rec.place as usize];
    if !colour_ok(b) {
        return Err(Refusal::BadNumber);
    }
    if b != 2 {
        return Ok(stepped(rec));
    }
    Ok(worked(Record {
        part: 1,
        found: 1,
        ..rec
    }))
}

fn scan_hold(rec: Record, fields: &[u16]) -> Result<CollectorTurn, Refusal>
    requires fits { rec.n * 4 ≡ length fields.now }
    requires room { rec.count < 4294967295 }
    requires place_lt_n { (rec.place < rec.n) × (rec.part < 8) }
    ensures { (colours : List ℕ) → collected (by_record rec result) colours ≡ scan_hold rec fields.now colours }
{
    let v = fields[(rec.place as usize) * 4 + (rec.part / 2) as usize];
    if !value_ok(rec.n, v) {
        return Err(Refusal::BadNumber);
    }
    Ok(worked(Record {
        part: rec.part + 1,
        hold: v,
        ..rec
    }))
}

fn scan_gray(rec: Record, colours: &mut [u8]) -> Result<CollectorTurn, Refusal>
    requires room { rec.count < 4294967295 }
    requires part_bound { rec.part < 9 }
    ensures { collected (by_record rec result) colours.new ≡ scan_gray rec colours.old }
{
    if !gray_ok(colours, rec.hold) {
        return Err(Refusal::BadNumber);
    }
    gray(colours, rec.hold);
    Ok(worked(Record {
        part: rec.part + 1,
        hold: NONE,
        ..rec
    }))
}

fn scan_close(rec: Record, colours: &mut [u8]) -> CollectorTurn
    requires fits { rec.n ≡ length colours.old }
    requires room { rec.count < 4294967295 }
    requires place_lt_n { rec.place < rec.n }
    ensures { collected (by_record rec (Ok result)) colours.new ≡ scan_close rec colours.old }
{
    colours[rec.place as usize] = 3;
    worked(Record {
        place: rec.place + 1,
        part: 0,
        ..rec
    })
}

// By a match on the part, odd and even parts as patterns, as the paper names it.
pub fn scan(rec: Record, fields: &[u16], colours: &mut [u8]) -> Result<CollectorTurn, Refusal>
    requires ready { Ready rec fields.now colours.old }
    requires rec_value { part_ok rec ≡ true }
    ensures { collected (by_record rec result) colours.new ≡ scanning rec fields.now colours.old rec.part }
{
    match rec.part {
        0 => scan_place(rec, colours),
        1 | 3 | 5 | 7 => scan_hold(rec, fields),
        2 | 4 | 6 | 8 => scan_gray(rec, colours),
        _ => Ok(scan_close(rec, colours)),
    }
}
