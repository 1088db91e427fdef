// Tests as bits.
ghost use Rattle.std.specs.Prelude.{◌≡◌, ◌*◌};
ghost use Rattle.faults.specs.Sides.{one};

// A bit where the test is passed, else nothing.
pub fn bit_if(test: bool, bit: u32) -> u32
    ensures { result ≡ bit * one test }
{
    if test { bit } else { 0 }
}
