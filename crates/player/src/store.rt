// The player's own store, and one line of the input played on it.
#![tactic(auto, using(std::proofs::lemmas::Bool::Decides::nat_tests), unfolding(machine::specs::Choice::every, machine::specs::Limits::limits_ok, crate::specs::Own::game, crate::specs::Own::within, crate::specs::Own::sizes))]

ghost use Rattle.std.specs.Prelude.{◌≡◌, Some, false};
ghost use Rattle.machine.specs.Store.{parts, outcome};
ghost use Rattle.lines.specs.Output.{said_of};
ghost use Rattle.player.specs.Own.{own, game, called, within, sizes, Plays};

use cells::NONE;
use cells::limits::limits_ok;
use census::census;
use lines::Reply::{Answered, Counted};
use lines::{Line, Reply};
use machine::{Record, Refusal, Row};

// A store's parts are the first M rows, 4N words and N colour bytes. Before a start that succeeded N, g and M are 0, and out of
// limits.
// Arrays, since memory is fixed, of which the record tells how much a store has: their other rows, words and bytes stay for a larger one.
#[derive(Clone, Copy)]
pub struct OwnStore {
    rec: Record,
    rows: [Row; 8],
    fields: [u16; 16384],
    colours: [u8; 4096],
}

// N and M, if N, g and M are within their limits.
fn within(n: u32, g: u32, m: u32) -> Result<(usize, usize), Refusal>
    ensures { result ≡ within n g m }
{
    if !limits_ok(n, g, m) {
        return Err(Refusal::BadSize);
    }
    Ok((n as usize, m as usize))
}

// N and M of the store that a line is played on: a start's own, else the record's.
fn sizes(rec: Record, line: Line) -> Result<(usize, usize), Refusal>
    ensures { result ≡ sizes rec line }
{
    match line {
        Line::Start(n, g, m) => within(n, g, m),
        _ => within(rec.n.into(), rec.g.into(), rec.m.into()),
    }
}

// The call that a line says, by a match: the lines are closed.
#[tactic(auto, unfolding(crate::specs::Own::called, machine::specs::Machine::outcome_of, machine::specs::Machine::turn, lines::specs::Output::said_of, machine::specs::Answer::said_by, machine::specs::Answer::said_by_census))]
fn call(
    line: Line,
    rec: &mut Record,
    desk: &mut [Row],
    fields: &mut [u16],
    colours: &mut [u8],
) -> Result<Reply, Refusal>
    ensures { outcome (said_of result) (parts rec.new desk.new fields.new colours.new)
        ≡ called line (parts rec.old desk.old fields.old colours.old) }
{
    match line {
        Line::Start(n, g, m) => turn::start(n, g, m, rec, desk, fields, colours).map(Answered),
        Line::Write(w, call) => turn::write(rec, desk, fields, colours, w, call).map(Answered),
        Line::Collect => turn::collect(rec, desk, fields, colours).map(Answered),
        Line::Census => census(rec, desk, fields, colours).map(Counted),
    }
}

// The line's call is lent the first M rows, 4N words and N colour bytes. Apart from `play`: what is written through a part of an array
// that was taken out of `self` is not known to the proof.
fn play_on(
    line: Line,
    rec: &mut Record,
    rows: &mut [Row; 8],
    fields: &mut [u16; 16384],
    colours: &mut [u8; 4096],
) -> Result<Reply, Refusal>
    ensures { Plays (own rec.old rows.old fields.old colours.old) (Some line) result (own rec.new rows.new fields.new colours.new) }
{
    let (cells, desk) = sizes(*rec, line)?;
    call(
        line,
        rec,
        &mut rows[..desk],
        &mut fields[..cells * 4],
        &mut colours[..cells],
    )
}

impl OwnStore {
    // Before any start.
    pub fn new() -> OwnStore
        ensures { (game result).started ≡ false }
    {
        OwnStore {
            rec: Record::fresh(0, 0, 0),
            rows: [Row::fresh(); 8],
            fields: [NONE; 16384],
            colours: [0; 4096],
        }
    }

    // A line that cannot be read is none.
    #[tactic(auto, using(crate::proofs::Steps::unreadable))]
    pub fn play(&mut self, line: Option<Line>) -> Result<Reply, Refusal>
        ensures { Plays self.old line result self.new }
    {
        let Some(line) = line else {
            return Err(Refusal::Unreadable);
        };
        let OwnStore {
            rec,
            rows,
            fields,
            colours,
        } = self;
        play_on(line, rec, rows, fields, colours)
    }
}
