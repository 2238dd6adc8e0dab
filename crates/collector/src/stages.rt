// Stages 0 to 3, and the turn by the stage.
#![tactic(auto, using(std::proofs::lemmas::Bool::Decides::nat_tests, machine::specs::RangeLaws::record_part, machine::specs::RangeLaws::record_count), unfolding(machine::specs::Choice::refuse, machine::specs::Collector::opening, machine::specs::Collector::waiting, machine::specs::Collector::marking, machine::specs::Collector::by_stage, machine::specs::Collector::collector_turn))]

ghost use Rattle.std.specs.Prelude.{◌≡◌, true, ◌<◌, Ok};
ghost use Rattle.cells.specs.Sized.{Sized};
ghost use Rattle.collector.specs.Ready.{Ready};
ghost use Rattle.machine.specs.Collector.{opening, waiting, marking, by_stage, collector_turn};
ghost use Rattle.machine.specs.Range.{part_ok};
ghost use Rattle.machine.specs.Turns.{by_record, collected};

use crate::scan::scan;
use crate::sweep::sweep;
use crate::turns::{entered, stepped, waited};
use cells::gray::{gray, gray_ok};
use cells::range::record_ok;
use machine::{Answer, CollectorTurn, Record, Refusal};

fn opening(rec: Record) -> CollectorTurn
    ensures { by_record rec (Ok result) ≡ opening rec }
{
    CollectorTurn {
        answer: Answer::Worked,
        rec: Record {
            stage: 1,
            count: 1,
            ..rec
        },
    }
}

fn waiting(rec: Record, seen: Result<bool, Refusal>, stage: u8) -> Result<CollectorTurn, Refusal>
    requires { rec.count < 4294967295 }
    ensures { by_record rec result ≡ waiting rec seen stage }
{
    let same = seen?;
    if same {
        return Ok(entered(rec, stage));
    }
    Ok(waited(rec))
}

fn marking(
    rec: Record,
    seen: Result<bool, Refusal>,
    colours: &mut [u8],
) -> Result<CollectorTurn, Refusal>
    requires { rec.count < 4294967295 }
    ensures { collected (by_record rec result) colours.new ≡ marking rec seen colours.old }
{
    if rec.g <= rec.place {
        return waiting(rec, seen, 4);
    }
    if !gray_ok(colours, rec.place) {
        return Err(Refusal::BadNumber);
    }
    gray(colours, rec.place);
    Ok(stepped(rec))
}

// By a match, as the paper names it: there are six stages, and the definition has the same cases.
fn by_stage(
    rec: Record,
    seen: Result<bool, Refusal>,
    fields: &[u16],
    colours: &mut [u8],
) -> Result<CollectorTurn, Refusal>
    requires ready { Ready rec fields.now colours.old }
    requires rec_value { part_ok rec ≡ true }
    ensures { collected (by_record rec result) colours.new ≡ by_stage rec seen fields.now colours.old rec.stage }
{
    match rec.stage {
        0 => Ok(opening(rec)),
        1 => waiting(rec, seen, 2),
        2 => waiting(rec, seen, 3),
        3 => marking(rec, seen, colours),
        4 => scan(rec, fields, colours),
        _ => sweep(rec, colours),
    }
}

// The collector's turn; `seen` is what a waiting test finds in the statuses.
pub fn collector_turn(
    rec: Record,
    seen: Result<bool, Refusal>,
    fields: &[u16],
    colours: &mut [u8],
) -> Result<CollectorTurn, Refusal>
    requires { Sized rec.n fields.now colours.old }
    ensures { collected (by_record rec result) colours.new ≡ collector_turn rec seen fields.now colours.old }
{
    if !record_ok(rec) {
        return Err(Refusal::BadNumber);
    }
    by_stage(rec, seen, fields, colours)
}
