// The six counts. Colours are the numbers that lent memory holds. That the slices fit is asked, as of the turns: a struct of them would hide
// that all are only read.
#![tactic(auto, using(crate::proofs::Counting::counting), unfolding(machine::specs::Census::counts))]

ghost use Rattle.std.specs.Prelude.{◌≡◌, ◌≤◌, length};
ghost use Rattle.machine.specs.Store.{parts};
ghost use Rattle.machine.specs.Census.{counts};
ghost use Rattle.cells.specs.Sized.{Sized};
ghost use Rattle.census.specs.Counting.{shades};

use crate::reach::held_cells;
use machine::{Counts, Record, Row};

// How many cells have each colour.
#[derive(Clone, Copy)]
pub struct Shades {
    pub free: u16,
    pub white: u16,
    pub gray: u16,
    pub black: u16,
}

// The colours in one pass.
fn tally(colours: &[u8]) -> Shades
    requires { length colours.now ≤ 4096 }
    ensures { result ≡ shades colours.now }
{
    let mut free: u16 = 0;
    let mut white: u16 = 0;
    let mut gray: u16 = 0;
    let mut black: u16 = 0;
    for b in colours {
        free += u16::from(*b == 0);
        white += u16::from(*b == 1);
        gray += u16::from(*b == 2);
        black += u16::from(*b == 3);
    }
    Shades {
        free,
        white,
        gray,
        black,
    }
}

pub fn counts_of(rec: Record, desk: &[Row], fields: &[u16], colours: &[u8]) -> Counts
    requires { Sized rec.n fields.now colours.now }
    ensures { result ≡ counts (parts rec desk.now fields.now colours.now) }
{
    let held = held_cells(rec, desk, fields, colours);
    let Shades {
        free,
        white,
        gray,
        black,
    } = tally(colours);
    Counts {
        free,
        white,
        gray,
        black,
        held,
        floating: rec.n - free - held,
    }
}
