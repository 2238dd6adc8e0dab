// The theory of the machine's moves: its definitions are in specs/, its theorems in proofs/. The one number of it that code may
// want is here: the most working turns that a cycle takes.
#![tactic(auto)]

ghost use Rattle.std.specs.Prelude.{◌≡◌};
ghost use Rattle.moves.specs.Bound.{c_max};

// C = (N + 1)² + 10 N + g + 5, for N cells and g pages. It asks for nothing: no N and g of 16 bits lead past 64 bits. (With
// 32 bits (N + 1)² could be 2^64.)
pub fn cycle_bound(n: u16, g: u16) -> u64
    ensures { result ≡ c_max n g }
{
    let cells = u64::from(n);
    let pages = u64::from(g);
    (cells + 1) * (cells + 1) + 10 * cells + pages + 5
}
