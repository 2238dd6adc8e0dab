// The census by value, for a desk of another form: the first of eight rows, as many as the caller says, are the desk.
#![tactic(auto, using(crate::proofs::ByValue::core_crowded))]

ghost use Rattle.std.specs.Prelude.{◌≡◌};
ghost use Rattle.census.specs.Counting.{census_by};

use crate::census;
use machine::{Counts, Record, Refusal, Row};

pub fn census_core(
    rec: Record,
    rows: usize,
    own: [Row; 8],
    fields: &[u16],
    colours: &[u8],
) -> Result<Counts, Refusal>
    ensures { result ≡ census_by rec rows own fields.now colours.now }
{
    if 8 < rows {
        return Err(Refusal::BadSize);
    }
    census(&rec, &own[..rows], fields, colours)
}
