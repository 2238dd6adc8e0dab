// The numbers of a line, which follow its word.
ghost use Rattle.std.specs.Prelude.{◌≡◌};
ghost use Rattle.lines.specs.Numbers.{number_of};

// A field as a decimal number of 1 to 5 digits.
#[tactic(auto, using(crate::proofs::Reading::numbers))]
pub fn read_number(field: &[u8]) -> Option<u32>
    ensures { result ≡ number_of field.now }
{
    if field.is_empty() || 5 < field.len() {
        return None;
    }
    let mut n = 0;
    for &b in field {
        if !b.is_ascii_digit() {
            return None;
        }
        n = n * 10 + u32::from(b - b'0');
    }
    Some(n)
}
