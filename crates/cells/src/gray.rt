// To gray a number. A colour is a number here and in the turns, for lent memory may hold any byte.
#![tactic(auto, using(std::proofs::lemmas::Bool::Decides::nat_tests), unfolding(machine::specs::Gray::grayed, machine::specs::Gray::gray_ok, machine::specs::Range::colour_ok))]

ghost use Rattle.std.specs.Prelude.{◌≡◌};
ghost use Rattle.machine.specs.Gray.{grayed, gray_ok};

pub fn gray(colours: &mut [u8], v: u16)
    ensures { colours.new ≡ grayed colours.old v }
{
    let i = v as usize;
    if i < colours.len() && colours[i] == 1 {
        colours[i] = 2;
    }
}

// Whether the colour that this reads is in range.
pub fn gray_ok(colours: &[u8], v: u16) -> bool
    ensures { result ≡ gray_ok colours.now v }
{
    let i = v as usize;
    colours.len() <= i || colours[i] <= 3
}
