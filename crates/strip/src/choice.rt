// One of two words by a test, for loops that go without a branch.
ghost use Rattle.std.specs.Prelude.{◌≡◌, cond};
ghost use Rattle.std.specs.Float.{binary32};
ghost use Rattle.std.specs.Float.Ieee.{ne, to_bits};

pub(crate) fn either(test: bool, a: u32, b: u32) -> u32
    ensures { result ≡ cond test a b }
{
    if test { a } else { b }
}

// A number's word, or 0 for a NaN.
pub(crate) fn known(x: f32) -> u32
    ensures { result ≡ cond (ne x x) 0 (to_bits binary32 x) }
{
    if x != x {
        return 0;
    }
    f32::to_bits(x)
}
