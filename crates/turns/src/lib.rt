// The calls of the machine for C and Rust, over plain numbers: an exported function takes no enum, so the record is lent as nine numbers, a
// row of the desk as 16 words, and an answer is a number. include/turns.h names them. Every call takes any numbers and any lent memory.
// `turns_c` exports each under its name: C takes functions from a static library alone.
#![tactic(auto)]

ghost use Rattle.std.specs.Prelude.{◌≡◌};
ghost use Rattle.machine.specs.declared.Call.{Call};
ghost use Rattle.moves.specs.Bound.{c_max};
ghost use Rattle.turns.specs.Calls.{lent, result_of, counted, start_by, write_by, collect_by, census_by};

mod calls;
mod plain;

use crate::calls::{census_words, collect_words, start_words, write_words};
use crate::plain::answer_number;
use machine::Call;
use moves::cycle_bound;

// Start: everything is filled.
pub fn turns_lent_start(
    numbers: &mut [u32],
    desk: &mut [u16],
    fields: &mut [u16],
    colours: &mut [u8],
    n: u32,
    g: u32,
    m: u32,
) -> u32
    ensures { result_of result (lent numbers.new desk.new fields.new colours.new)
        ≡ start_by n g m (lent numbers.old desk.old fields.old colours.old) }
{
    answer_number(start_words(numbers, desk, fields, colours, n, g, m))
}

// Puts page p in slot s of writer w.
pub fn turns_lent_page(
    numbers: &[u32],
    desk: &mut [u16],
    fields: &mut [u16],
    colours: &mut [u8],
    w: u32,
    p: u32,
    s: u32,
) -> u32
    ensures { result_of result (lent numbers.now desk.new fields.new colours.new)
        ≡ write_by w (Call.Page p s) (lent numbers.now desk.old fields.old colours.old) }
{
    answer_number(write_words(numbers, desk, fields, colours, w, Call::Page(p, s)))
}

// Copies slot r to slot s.
pub fn turns_lent_copy(
    numbers: &[u32],
    desk: &mut [u16],
    fields: &mut [u16],
    colours: &mut [u8],
    w: u32,
    r: u32,
    s: u32,
) -> u32
    ensures { result_of result (lent numbers.now desk.new fields.new colours.new)
        ≡ write_by w (Call.Copy r s) (lent numbers.now desk.old fields.old colours.old) }
{
    answer_number(write_words(numbers, desk, fields, colours, w, Call::Copy(r, s)))
}

// Empties slot r.
pub fn turns_lent_drop(
    numbers: &[u32],
    desk: &mut [u16],
    fields: &mut [u16],
    colours: &mut [u8],
    w: u32,
    r: u32,
) -> u32
    ensures { result_of result (lent numbers.now desk.new fields.new colours.new)
        ≡ write_by w (Call.Drop r) (lent numbers.now desk.old fields.old colours.old) }
{
    answer_number(write_words(numbers, desk, fields, colours, w, Call::Drop(r)))
}

// Puts field f of the cell in slot r into slot s.
pub fn turns_lent_read(
    numbers: &[u32],
    desk: &mut [u16],
    fields: &mut [u16],
    colours: &mut [u8],
    w: u32,
    r: u32,
    f: u32,
    s: u32,
) -> u32
    ensures { result_of result (lent numbers.now desk.new fields.new colours.new)
        ≡ write_by w (Call.Read r f s) (lent numbers.now desk.old fields.old colours.old) }
{
    answer_number(write_words(numbers, desk, fields, colours, w, Call::Read(r, f, s)))
}

// Starts to store slot q into field f of the cell in slot r.
pub fn turns_lent_store(
    numbers: &[u32],
    desk: &mut [u16],
    fields: &mut [u16],
    colours: &mut [u8],
    w: u32,
    r: u32,
    f: u32,
    q: u32,
) -> u32
    ensures { result_of result (lent numbers.now desk.new fields.new colours.new)
        ≡ write_by w (Call.Store r f q) (lent numbers.now desk.old fields.old colours.old) }
{
    answer_number(write_words(numbers, desk, fields, colours, w, Call::Store(r, f, q)))
}

// Starts to create a cell into slot s.
pub fn turns_lent_create(
    numbers: &[u32],
    desk: &mut [u16],
    fields: &mut [u16],
    colours: &mut [u8],
    w: u32,
    s: u32,
) -> u32
    ensures { result_of result (lent numbers.now desk.new fields.new colours.new)
        ≡ write_by w (Call.Create s) (lent numbers.now desk.old fields.old colours.old) }
{
    answer_number(write_words(numbers, desk, fields, colours, w, Call::Create(s)))
}

// Answers the handshake that is posted.
pub fn turns_lent_answer(
    numbers: &[u32],
    desk: &mut [u16],
    fields: &mut [u16],
    colours: &mut [u8],
    w: u32,
) -> u32
    ensures { result_of result (lent numbers.now desk.new fields.new colours.new)
        ≡ write_by w Call.Answer (lent numbers.now desk.old fields.old colours.old) }
{
    answer_number(write_words(numbers, desk, fields, colours, w, Call::Answer))
}

// The next turn of the writer's job.
pub fn turns_lent_next(
    numbers: &[u32],
    desk: &mut [u16],
    fields: &mut [u16],
    colours: &mut [u8],
    w: u32,
) -> u32
    ensures { result_of result (lent numbers.now desk.new fields.new colours.new)
        ≡ write_by w Call.Next (lent numbers.now desk.old fields.old colours.old) }
{
    answer_number(write_words(numbers, desk, fields, colours, w, Call::Next))
}

// A turn of the collector.
pub fn turns_lent_collect(
    numbers: &mut [u32],
    desk: &[u16],
    fields: &[u16],
    colours: &mut [u8],
) -> u32
    ensures { result_of result (lent numbers.new desk.now fields.now colours.new)
        ≡ collect_by (lent numbers.old desk.now fields.now colours.old) }
{
    answer_number(collect_words(numbers, desk, fields, colours))
}

// The census: its six counts are written, or left.
pub fn turns_lent_census(
    numbers: &[u32],
    desk: &[u16],
    fields: &[u16],
    colours: &[u8],
    counts: &mut [u32],
) -> u32
    ensures { counted result counts.new
        ≡ census_by (lent numbers.now desk.now fields.now colours.now) counts.old }
{
    answer_number(census_words(numbers, desk, fields, colours, counts))
}

// The most working turns that a cycle takes.
pub fn turns_cycle_bound(n: u16, g: u16) -> u64
    ensures { result ≡ c_max n g }
{
    cycle_bound(n, g)
}

// The version that this archive and include/turns.h are of: 10,000 × major + 100 × minor + patch.
pub fn turns_version() -> u32
    ensures { result ≡ 200 }
{
    200
}
