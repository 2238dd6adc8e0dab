// What is in range: the four lent parts. Each chain has a function of its own: of three in one, the proof follows two.
#![tactic(auto, using(cells::proofs::Testing::same_all), unfolding(machine::specs::Choice::every))]

ghost use Rattle.std.specs.Prelude.{◌≡◌, [], ◌∷◌};
ghost use Rattle.std.specs.List.{list_all};
ghost use Rattle.machine.specs.Choice.{all, every};
ghost use Rattle.machine.specs.Range.{record_ok, row_ok, value_ok, colour_ok};

use cells::range::{both, colour_ok, record_ok, row_ok, value_ok};
use machine::{Record, Row};

fn rows_ok(n: u16, desk: &[Row]) -> bool
    ensures { result ≡ list_all (row_ok n) desk.now }
{
    desk.iter().all(|row| row_ok(n, *row))
}

// A stretch of the fields: many values are tested at once, as a row's slots are. By `all`, with an exit at each, a census took 1.6 times the
// instructions.
fn stretch_ok(n: u16, values: &[u16]) -> bool
    ensures { result ≡ list_all (value_ok n) values.now }
{
    values
        .iter()
        .fold(true, |good, v| both(good, value_ok(n, *v)))
}

// By stretches of 64: after one that fails no other is read.
fn values_ok(n: u16, values: &[u16]) -> bool
    ensures { result ≡ list_all (value_ok n) values.now }
{
    let (stretches, rest) = values.as_chunks::<64>();
    both(
        stretches.iter().all(|stretch| stretch_ok(n, stretch)),
        stretch_ok(n, rest),
    )
}

fn colours_ok(colours: &[u8]) -> bool
    ensures { result ≡ all colour_ok colours.now }
{
    colours
        .iter()
        .fold(true, |good, b| both(good, colour_ok(*b)))
}

pub fn in_range(rec: Record, desk: &[Row], fields: &[u16], colours: &[u8]) -> bool
    ensures { result ≡ every
        (record_ok rec ∷ all (row_ok rec.n) desk.now ∷ all (value_ok rec.n) fields.now ∷ all colour_ok colours.now ∷ []) }
{
    record_ok(rec) && rows_ok(rec.n, desk) && values_ok(rec.n, fields) && colours_ok(colours)
}
