// The exported calls of the second engine, which has whole numbers alone. `soft_c` exports the same: a
// library exports what its own crate marks, and no macro writes a clause.
ghost use Rattle.std.specs.Prelude.{◌≡◌};
ghost use Rattle.std.specs.Float.{binary32};
ghost use Rattle.float.specs.Engine.{ieee};
ghost use Rattle.float.specs.Cos.{cos_word, sin_word};
ghost use Rattle.float.specs.Atan.{atan_norm_word, atan_word};
ghost use Rattle.soft.specs.Operations.{Adds, Subtracts, Multiplies, Divides};
ghost use Rattle.soft.specs.Words.{add_word, sub_word, mul_word, div_word};

// The sum of two numbers, to the nearest word.
#[unsafe(no_mangle)]
pub extern "C" fn dampmeadow_soft_add(a: u32, b: u32) -> u32
    ensures word { result ≡ add_word binary32 a b }
    ensures rounds { Adds binary32 a b result }
{
    soft::add::add(a, b)
}

// The first less the second.
#[unsafe(no_mangle)]
pub extern "C" fn dampmeadow_soft_sub(a: u32, b: u32) -> u32
    ensures word { result ≡ sub_word binary32 a b }
    ensures rounds { Subtracts binary32 a b result }
{
    soft::add::sub(a, b)
}

// The product of two numbers.
#[unsafe(no_mangle)]
pub extern "C" fn dampmeadow_soft_mul(a: u32, b: u32) -> u32
    ensures word { result ≡ mul_word binary32 a b }
    ensures rounds { Multiplies binary32 a b result }
{
    soft::mul::mul(a, b)
}

// The first over the second.
#[unsafe(no_mangle)]
pub extern "C" fn dampmeadow_soft_div(a: u32, b: u32) -> u32
    ensures word { result ≡ div_word binary32 a b }
    ensures rounds { Divides binary32 a b result }
{
    soft::div::div(a, b)
}

// Raw cos, as the first engine has it on every word.
#[unsafe(no_mangle)]
pub extern "C" fn dampmeadow_soft_cos(a: u32) -> u32
    ensures { result ≡ cos_word ieee a }
{
    soft::cos::cos(a)
}

// Raw sin, in the same way.
#[unsafe(no_mangle)]
pub extern "C" fn dampmeadow_soft_sin(a: u32) -> u32
    ensures { result ≡ sin_word ieee a }
{
    soft::sin::sin(a)
}

// Raw atan_norm.
#[unsafe(no_mangle)]
pub extern "C" fn dampmeadow_soft_atan_norm(a: u32) -> u32
    ensures { result ≡ atan_norm_word ieee a }
{
    soft::atan::atan_norm(a)
}

// Raw atan.
#[unsafe(no_mangle)]
pub extern "C" fn dampmeadow_soft_atan(a: u32) -> u32
    ensures { result ≡ atan_word ieee a }
{
    soft::atan::atan(a)
}
