// An operation on doubles by its number, raw or guarded, on a word.
ghost use Rattle.std.specs.Prelude.{◌≡◌};
ghost use Rattle.std.specs.Result.{result_unwrap_or};
ghost use Rattle.refusals.specs.Given.{refusal_given};
ghost use Rattle.double.specs.Words.{double_refusal, double_word};

use crate::{F64, guarded, number};
use format::Number;
use refusals::Refusal;

// The word that the operation gives, or why there is none. A raw kernel answers every word; a guarded
// one may be refused, with 1, 2, 9, 3 or 4; and a number that has no kernel is refused with 6.
pub fn answer(op: u32, a: u64) -> Result<u64, Refusal>
    ensures refusal { refusal_given result ≡ double_refusal op a }
    ensures word { result_unwrap_or result 0 ≡ double_word op a }
{
    match op {
        number::RAW_TRUNC => Ok(F64(a).trunc().0),
        number::RAW_FRACT => Ok(F64(a).fract().0),
        number::RAW_SQRT => Ok(F64(a).sqrt().0),
        number::RAW_INV => Ok(F64(a).inv().0),
        _ => guarded::call(op, a).map(|x| F64::of(x).0),
    }
}
