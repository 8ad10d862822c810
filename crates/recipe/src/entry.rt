// An entry of a list of recipes: x as eight digits, a blank, and the recipe.
ghost use Rattle.recipe.specs.Entry.{AnswersEntry};

use crate::token;
use float::F32;
use frame::words;
use refusals::Refusal;

// The answer to an entry, given without its newline, as words: 7 for a line that is none, else what
// the recipe answers at x. They are packed: `AnswersEntry` and `frame::write` speak of packed words.
pub fn answer(line: &[u8]) -> u64
    ensures { AnswersEntry line.now result }
{
    let Some((x, rest)) = token::number(line) else {
        return words::packed(Err(Refusal::Malformed));
    };
    let Some(recipe) = rest.strip_prefix(b" ") else {
        return words::packed(Err(Refusal::Malformed));
    };
    words::of_answer(crate::answer(recipe, F32(x)))
}
