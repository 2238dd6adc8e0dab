// The rows of a lent desk by value, for who goes by the kept calls or by the census by value.
#![tactic(auto, using(std::proofs::lemmas::Bool::Decides::nat_tests), unfolding(turn::specs::Lent::own_rows))]

ghost use Rattle.std.specs.Prelude.{◌≡◌, length, take};
ghost use Rattle.turn.specs.Lent.{own_rows};

use machine::Row;

// The rows of the desk, or the first eight where it has more, and fresh rows after them.
pub fn gather(desk: &[Row]) -> [Row; 8]
    ensures { take (own_rows (length desk.now)) result ≡ take (own_rows (length desk.now)) desk.now }
{
    let n = desk.len().min(8);
    let mut own = [Row::fresh(); 8];
    own[..n].copy_from_slice(&desk[..n]);
    own
}
