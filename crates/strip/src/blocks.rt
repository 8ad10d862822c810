// A strip in blocks, for the operations whose steps are quick beside their tests. All words of a block
// are judged at once, and where each is in reach the steps run alone; else the block is done by steps that
// take any words. A block's length is written out, so that its loops are compiled for it.
ghost use Rattle.std.specs.Prelude.{◌≡◌, true, false};
ghost use Rattle.strip.specs.Strip.{Fills, Agree};
ghost use Rattle.strip.specs.Lists.{Kept};
ghost use Rattle.strip.specs.Reach.{has_blocks, on_bits, AllReach};

use crate::lists::Lists;
use crate::quick;

// The words of a block.
const BLOCK: usize = 32;

// Fills every place, block by block, and what is left behind the last block by steps that take any words.
// That an operation has blocks is a fact about a number, as a const parameter is one.
pub(crate) fn fill<const OP: u32>(s: &mut Lists)
    requires { has_blocks OP ≡ true }
    ensures filled { Fills OP s.old.first.now s.old.second.now s.new.answers.now s.new.refusals.now }
    ensures same { Kept s.old s.new }
{
    cut::<OP>(s.first, s.second, s.answers, s.refusals);
}

// The same over the lists by themselves, cut by ranges: the check follows no part of a list that a struct
// lends, and `chunks_mut` says nothing of what the list ends as. Each operation has a function of its own: with
// all of them in one, a strip of sqrt with one word in a hundred special takes a seventh longer.
#[inline(never)]
fn cut<const OP: u32>(first: &[u32], second: &[u32], answers: &mut [u32], refusals: &mut [u32])
    requires { Agree first.now second.now answers.old refusals.old × (has_blocks OP ≡ true) }
    ensures { Fills OP first.now second.now answers.new refusals.new }
{
    let count = first.len();
    for n in 0..count / BLOCK {
        let from = n * BLOCK;
        let to = from + BLOCK;
        part::<OP, true>(
            &first[from..to],
            &second[from..to],
            &mut answers[from..to],
            &mut refusals[from..to],
        );
    }
    let from = count - count % BLOCK;
    part::<OP, false>(
        &first[from..count],
        &second[from..count],
        &mut answers[from..count],
        &mut refusals[from..count],
    );
}

// The same for a part of the lists: a whole block, or what is left behind the last.
fn part<const OP: u32, const WHOLE: bool>(
    first: &[u32],
    second: &[u32],
    answers: &mut [u32],
    refusals: &mut [u32],
)
    requires { Agree first.now second.now answers.old refusals.old × (has_blocks OP ≡ true) }
    ensures { Fills OP first.now second.now answers.new refusals.new }
{
    let s = &mut Lists {
        first,
        second,
        answers,
        refusals,
    };
    if WHOLE {
        block::<OP>(s);
    } else {
        each::<OP>(s);
    }
}

// The same for a block. A kernel that is a step on the word itself, which every word bears, is judged beside
// the step, since that is quicker than before it.
fn block<const OP: u32>(s: &mut Lists)
    requires { has_blocks OP ≡ true }
    ensures filled { Fills OP s.old.first.now s.old.second.now s.new.answers.now s.new.refusals.now }
    ensures same { Kept s.old s.new }
{
    if quick::on_bits::<OP>() {
        if !try_bits::<OP>(s) {
            each::<OP>(s);
        }
    } else if judge::<OP>(s) {
        run::<OP>(s);
    } else {
        each::<OP>(s);
    }
}

// True only where every place is in reach of the steps alone.
fn judge<const OP: u32>(s: &Lists) -> bool
    ensures { result ≡ true → AllReach OP s.now.first.now s.now.second.now }
{
    let mut marks = 0;
    for (a, b) in s.first.iter().zip(s.second) {
        marks |= quick::mark::<OP>(*a, *b);
    }
    marks < 0x8000_0000
}

// Fills every place by the steps alone. Nothing is refused.
fn run<const OP: u32>(s: &mut Lists)
    requires { AllReach OP s.old.first.now s.old.second.now × (on_bits OP ≡ false) }
    ensures filled { Fills OP s.old.first.now s.old.second.now s.new.answers.now s.new.refusals.now }
    ensures same { Kept s.old s.new }
{
    s.fill_by(quick::step::<OP>);
}

// Fills every place by steps that take any words.
fn each<const OP: u32>(s: &mut Lists)
    requires { has_blocks OP ≡ true }
    ensures filled { Fills OP s.old.first.now s.old.second.now s.new.answers.now s.new.refusals.now }
    ensures same { Kept s.old s.new }
{
    s.fill_by(quick::place::<OP>);
}

// Fills every place by the step on its word, with nothing refused, and is true only where that is the
// answer at each. The loop goes by places, as that of `fill_by`.
fn try_bits<const OP: u32>(s: &mut Lists) -> bool
    requires { on_bits OP ≡ true }
    ensures filled { result ≡ true → Fills OP s.old.first.now s.old.second.now s.new.answers.now s.new.refusals.now }
    ensures same { Kept s.old s.new }
{
    let first = s.first;
    let second = s.second;
    let answers = &mut *s.answers;
    let refusals = &mut *s.refusals;
    let mut marks = 0;
    for i in 0..first.len() {
        let w = first[i];
        answers[i] = quick::bits::<OP>(w);
        refusals[i] = 0;
        marks |= quick::mark::<OP>(w, second[i]);
    }
    marks < 0x8000_0000
}
