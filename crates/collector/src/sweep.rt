// Stage 5. Colours are the numbers that lent memory holds.
#![tactic(auto, using(std::proofs::lemmas::Bool::Decides::nat_tests), unfolding(machine::specs::Choice::refuse, machine::specs::Collector::swept, machine::specs::Collector::sweeping, machine::specs::Range::colour_ok))]

ghost use Rattle.std.specs.Prelude.{◌≡◌, ◌<◌, length};
ghost use Rattle.machine.specs.Collector.{swept, sweeping};
ghost use Rattle.machine.specs.Turns.{by_record, collected};

use crate::turns::{entered, stepped};
use cells::range::colour_ok;
use machine::{CollectorTurn, Record, Refusal};

fn swept(b: u8) -> u8
    ensures { result ≡ swept b }
{
    match b {
        1 => 0,
        3 => 1,
        _ => b,
    }
}

pub fn sweep(rec: Record, colours: &mut [u8]) -> Result<CollectorTurn, Refusal>
    requires fits { rec.n ≡ length colours.old }
    requires room { rec.count < 4294967295 }
    ensures { collected (by_record rec result) colours.new ≡ sweeping rec colours.old }
{
    if rec.n <= rec.place {
        return Ok(entered(rec, 0));
    }
    let b = colours[rec.place as usize];
    if !colour_ok(b) {
        return Err(Refusal::BadNumber);
    }
    colours[rec.place as usize] = swept(b);
    Ok(stepped(rec))
}
