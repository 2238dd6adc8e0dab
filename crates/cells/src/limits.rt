// Refusal 1: the numbers of the store and the lent lengths.
#![tactic(auto, using(std::proofs::lemmas::Bool::Decides::nat_tests), unfolding(machine::specs::Choice::every, machine::specs::Limits::limits_ok, machine::specs::Limits::lengths_ok, machine::specs::Limits::sizes_ok))]

ghost use Rattle.std.specs.Prelude.{◌≡◌};
ghost use Rattle.machine.specs.Limits.{limits_ok, lengths_ok, sizes_ok};

use machine::Record;

// Compared one by one: `contains` of a range slows every turn.
pub fn limits_ok(n: u32, g: u32, m: u32) -> bool
    ensures { result ≡ limits_ok n g m }
{
    1 <= n && n <= 4096 && 1 <= g && g <= 16 && g <= n && 1 <= m && m <= 8
}

pub fn lengths_ok(n: u32, m: u32, rows: usize, words: usize, bytes: usize) -> bool
    ensures { result ≡ lengths_ok n m rows words bytes }
{
    words == n as usize * 4 && bytes == n as usize && rows == m as usize
}

pub fn sizes_ok(n: u32, g: u32, m: u32, rows: usize, words: usize, bytes: usize) -> bool
    ensures { result ≡ sizes_ok n g m rows words bytes }
{
    limits_ok(n, g, m) && lengths_ok(n, m, rows, words, bytes)
}

// Whether the lent lengths fit this record.
pub fn record_fits(rec: Record, rows: usize, words: usize, bytes: usize) -> bool
    ensures { result ≡ sizes_ok rec.n rec.g rec.m rows words bytes }
{
    sizes_ok(rec.n.into(), rec.g.into(), rec.m.into(), rows, words, bytes)
}
