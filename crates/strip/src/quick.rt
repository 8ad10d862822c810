// A place of a strip for the operations that have blocks: by the steps alone, where a test of the
// words has told that no step meets a NaN and nothing is refused, and else by steps that take any words.
ghost use Rattle.std.specs.Prelude.{◌≡◌, true, false, cond, ◌≤◌, ◌<◌, ◌^◌, leb};
ghost use Rattle.std.specs.Float.{binary32};
ghost use Rattle.format.specs.Fields.{magnitude};
ghost use Rattle.format.specs.Classes.{is_zero};
ghost use Rattle.float.specs.Engine.{ieee};
ghost use Rattle.float.specs.Atan2.{atan2_word};
ghost use Rattle.float.specs.Cos.{cos_word, sin_word};
ghost use Rattle.float.specs.Hypot.{hypot_word};
ghost use Rattle.guard.specs.Operations.{op_sqrt, op_invsqrt, op_inv, op_atan2};
ghost use Rattle.guard.specs.Refusals.{refusal_of};
ghost use Rattle.strip.specs.Strip.{word_at, refusal_at};
ghost use Rattle.strip.specs.Reach.{angle_reach, has_blocks, reach, on_bits, half_word, bits_word, size_number};

use crate::op::{RAW_ATAN, RAW_ATAN2, RAW_COS, RAW_HYPOT, RAW_SIN, RAW_SQRT};
use crate::{angle, atan, choice, cosine, hypot};
use float::{F32, cos};
use format::Number;
use frame::words::RAW;
use guard::number::{ABS, ATAN, ATAN2, COS, HYPOT, INV, INVSQRT, SIN, SQRT};

// The word of the smallest normal number.
const NORMAL: u32 = 0x0080_0000;

// The ends of the gates: inv to 2^126, atan under 2^64, atan2 and hypot from 2^-60 to 2^62, cos and sin to
// 256; and how far the steps of raw cos go.
const INV_END: u32 = 0x7e80_0000;

const ATAN_END: u32 = 0x5f7f_ffff;

const PAIR_START: u32 = 0x2180_0000;

const PAIR_END: u32 = 0x5e80_0000;

const COS_END: u32 = 0x4380_0000;

const RAW_COS_END: u32 = 0x4480_0000;

// ---- the test

// A word whose highest bit is clear only where the steps alone are the kernel's. Marks that are or-ed
// tell the same of all their words.
pub(crate) fn mark<const OP: u32>(a: u32, b: u32) -> u32
    ensures { result < 2 ^ 31 → reach OP a b ≡ true }
{
    match OP {
        ABS => size_mark(a, 0x7f7f_ffff),
        SQRT | INVSQRT => normal_mark(a),
        RAW_SQRT => unsigned_mark(a),
        INV => range_mark(a),
        ATAN | RAW_ATAN => size_mark(a, ATAN_END),
        ATAN2 | RAW_ATAN2 | HYPOT => angle_mark(a, b),
        COS | SIN | RAW_SIN => size_mark(a, COS_END),
        RAW_COS => size_mark(a, RAW_COS_END),
        RAW_HYPOT => numbers_mark(a, b),
        _ => 0x8000_0000,
    }
}

// Of positive normal numbers.
#[tactic(auto, using(crate::proofs::Marks::normal_told))]
fn normal_mark(w: u32) -> u32
    ensures { result < 2 ^ 31 → (0x0080_0000 ≤ w) × (w < 0x7f80_0000) }
{
    let above = w.wrapping_add(0xff80_0000);
    above | above.wrapping_add(0x0100_0000)
}

// Of words without the sign that are no NaN.
#[tactic(auto, using(crate::proofs::Marks::unsigned_told))]
fn unsigned_mark(w: u32) -> u32
    ensures { result < 2 ^ 31 → w ≤ 0x7f80_0000 }
{
    w | w.wrapping_add(0x007f_ffff)
}

// Of magnitudes from that of the smallest normal number to 2^126.
#[tactic(auto, using(crate::proofs::Marks::range_told))]
fn range_mark(w: u32) -> u32
    ensures { result < 2 ^ 31 → (0x0080_0000 ≤ magnitude binary32 w) × (magnitude binary32 w ≤ 0x7e80_0000) }
{
    size_mark(w, INV_END) | F32(w).without_sign().0.wrapping_add(0xff80_0000)
}

// Of magnitudes up to a limit.
fn size_mark(w: u32, limit: u32) -> u32
    requires { limit < 2 ^ 31 }
    ensures { result < 2 ^ 31 → magnitude binary32 w ≤ limit }
{
    F32(w).without_sign().0 + (0x7fff_ffff - limit)
}

// Of two magnitudes of which neither is above 2^62, and not both are below 2^-60.
#[tactic(auto, using(crate::proofs::Marks::angle_told))]
fn angle_mark(y: u32, x: u32) -> u32
    ensures { result < 2 ^ 31 → angle_reach y x ≡ true }
{
    let height = F32(y).without_sign().0;
    let across = F32(x).without_sign().0;
    // 0x217f_ffff is 0x7fff_ffff - PAIR_END: such a sum reaches 2^31 past the end; 0x5e80_0000 is
    // 0x8000_0000 - PAIR_START: such a one from the start on
    let above = (height + 0x217f_ffff) | (across + 0x217f_ffff);
    above | !((height + 0x5e80_0000) | (across + 0x5e80_0000))
}

// Of two words that are no NaNs.
fn numbers_mark(a: u32, b: u32) -> u32
    ensures { result < 2 ^ 31 → (magnitude binary32 a ≤ 0x7f80_0000) × (magnitude binary32 b ≤ 0x7f80_0000) }
{
    size_mark(a, F32::INFINITY.0) | size_mark(b, F32::INFINITY.0)
}

// ---- the steps alone

// A place in reach, of a kernel that is no step on the word itself: its word, and no refusal.
pub(crate) fn step<const OP: u32>(a: u32, b: u32) -> (u32, u32)
    requires { (reach OP a b ≡ true) × (on_bits OP ≡ false) }
    ensures { (result.0 ≡ word_at OP a b) × (result.1 ≡ refusal_at OP a b) }
{
    (word::<OP>(a, b), 0)
}

// What the single call answers there. It refuses nothing.
fn word<const OP: u32>(a: u32, b: u32) -> u32
    requires { (reach OP a b ≡ true) × (on_bits OP ≡ false) }
    ensures { (result ≡ word_at OP a b) × (refusal_at OP a b ≡ 0) }
{
    match OP {
        ATAN | RAW_ATAN => atan::within_gate(a),
        ATAN2 | RAW_ATAN2 => angle::within_gate(a, b),
        COS | RAW_COS => cosine::cos(a),
        SIN | RAW_SIN => cosine::sin(a),
        HYPOT | RAW_HYPOT => hypot::of_numbers(a, b),
        _ => 0,
    }
}

// Whether the kernel is a step on the word itself.
pub(crate) fn on_bits<const OP: u32>() -> bool
    ensures { result ≡ on_bits OP }
{
    matches!(OP, ABS | SQRT | RAW_SQRT | INVSQRT | INV)
}

// The kernels that are a step on the word itself, which every word bears: abs, sqrt in reach, invsqrt and
// inv. That w is a word is handed back for the loop that calls it.
pub(crate) fn bits<const OP: u32>(w: u32) -> u32
    ensures { (result ≡ bits_word OP w) × (w < 2 ^ 32) }
{
    match OP {
        ABS => F32(w).abs().0,
        INVSQRT => F32(w).invsqrt().0,
        INV => F32(w).inv().0,
        _ => half(w),
    }
}

// Half of the sum of a word and that of 1.
fn half(w: u32) -> u32
    ensures { result ≡ half_word w }
{
    w.wrapping_add(F32::ONE.0) >> 1
}

// ---- any words

// A place: its word and its refusal.
#[tactic(auto, using(crate::proofs::InReach::beside_refusal))]
pub(crate) fn place<const OP: u32>(a: u32, b: u32) -> (u32, u32)
    requires { has_blocks OP ≡ true }
    ensures { (result.0 ≡ word_at OP a b) × (result.1 ≡ refusal_at OP a b) }
{
    let word = any::<OP>(a, b);
    let number = number::<OP>(a, b);
    (choice::either(number == 0, word, 0), number)
}

// The refusal, of which a raw one has none. It is chosen without a branch, so that a loop over it is compiled to
// vector code: a number, as the list holds it, and no `Option`.
#[tactic(auto, using(crate::proofs::InReach::numbers))]
fn number<const OP: u32>(a: u32, b: u32) -> u32
    requires { has_blocks OP ≡ true }
    ensures { result ≡ refusal_at OP a b }
{
    if OP >= RAW {
        return 0;
    }
    match OP {
        ABS => size_number(a, 0x7fff_ffff),
        SQRT => root_number(a),
        INVSQRT => invsqrt_number(a),
        INV => inv_number(a),
        ATAN => size_number(a, ATAN_END),
        ATAN2 | HYPOT => angle_number(a, b),
        COS => size_number(a, COS_END),
        SIN => size_number(a, COS_END),
        _ => 0,
    }
}

// Of sqrt: 1 of an infinity or a NaN, 9 of a small number, 3 of one below 0.
#[tactic(auto, using(crate::proofs::Numbers::root_number_is))]
fn root_number(w: u32) -> u32
    ensures { result ≡ refusal_of op_sqrt w 0 }
{
    let size = F32(w).without_sign().0;
    let below = choice::either(w >= 0x8000_0000, 3, 0);
    let small = choice::either(size < NORMAL, 9, below);
    let some = choice::either(size == 0, 0, small);
    choice::either(size >= F32::INFINITY.0, 1, some)
}

// Of invsqrt: the same, and 2 of a zero.
#[tactic(auto, using(crate::proofs::Numbers::invsqrt_number_is))]
fn invsqrt_number(w: u32) -> u32
    ensures { result ≡ refusal_of op_invsqrt w 0 }
{
    choice::either(F32(w).is_zero(), 2, root_number(w))
}

// Of inv: 1 of an infinity or a NaN, 2 of a zero, 9 of a small number, 4 past the gate.
#[tactic(auto, using(crate::proofs::Numbers::inv_number_is))]
fn inv_number(w: u32) -> u32
    ensures { result ≡ refusal_of op_inv w 0 }
{
    let size = F32(w).without_sign().0;
    let small = choice::either(size < NORMAL, 9, size_number(w, INV_END));
    choice::either(size == 0, 2, small)
}

// Of atan2 and hypot: 1 where either is an infinity or a NaN, 4 past the gate.
#[tactic(auto, using(crate::proofs::Numbers::angle_number_is))]
fn angle_number(y: u32, x: u32) -> u32
    ensures { result ≡ refusal_of op_atan2 y x }
{
    let height = F32(y).without_sign().0;
    let across = F32(x).without_sign().0;
    let outside = choice::either(angle_inside(y, x), 0, 4);
    choice::either(
        (height >= F32::INFINITY.0) | (across >= F32::INFINITY.0),
        1,
        outside,
    )
}

// Whether the gate of atan2 and hypot takes two words.
fn angle_inside(y: u32, x: u32) -> bool
    ensures { result ≡ angle_reach y x }
{
    let height = F32(y).without_sign().0;
    let across = F32(x).without_sign().0;
    let above = (height >= PAIR_START) | (across >= PAIR_START);
    (height <= PAIR_END) & (across <= PAIR_END) & above
}

// Of a kernel whose gate has a highest magnitude alone: 1 of an infinity or a NaN, 4 past it.
fn size_number(w: u32, limit: u32) -> u32
    ensures { result ≡ size_number limit w }
{
    let size = F32(w).without_sign().0;
    let outside = choice::either(size > limit, 4, 0);
    choice::either(size >= F32::INFINITY.0, 1, outside)
}

// The word, where there is no refusal.
#[tactic(auto, using(crate::proofs::InReach::words))]
fn any<const OP: u32>(a: u32, b: u32) -> u32
    ensures { has_blocks OP ≡ true → refusal_at OP a b ≡ 0 → result ≡ word_at OP a b }
{
    match OP {
        ABS => F32(a).abs().0,
        SQRT => root(a),
        RAW_SQRT => F32(a).sqrt().0,
        INVSQRT => F32(a).invsqrt().0,
        INV => F32(a).inv().0,
        ATAN | RAW_ATAN => atan::of_any(a),
        ATAN2 => guarded_angle(a, b),
        RAW_ATAN2 => angle::of_any(a, b),
        COS => cosine::cos(within(a)),
        RAW_COS => raw_cos(a),
        SIN => cosine::sin(within(a)),
        RAW_SIN => raw_sin(a),
        HYPOT => guarded_hypot(a, b),
        RAW_HYPOT => hypot::of_any(a, b),
        _ => 0,
    }
}

// The square root, of a zero and of a positive normal number.
fn root(w: u32) -> u32
    ensures { result ≡ cond (is_zero binary32 w) w (half_word w) }
{
    choice::either(F32(w).is_zero(), w, half(w))
}

// atan2 within its gate; past it that of 0 and 1.
fn guarded_angle(y: u32, x: u32) -> u32
    ensures { result ≡ atan2_word (cond (angle_reach y x) y 0) (cond (angle_reach y x) x 0x3f80_0000) }
{
    let inside = angle_inside(y, x);
    angle::within_gate(
        choice::either(inside, y, 0),
        choice::either(inside, x, F32::ONE.0),
    )
}

// The same of hypot.
fn guarded_hypot(a: u32, b: u32) -> u32
    ensures { result ≡ hypot_word (cond (angle_reach a b) a 0) (cond (angle_reach a b) b 0x3f80_0000) }
{
    let inside = angle_inside(a, b);
    hypot::of_numbers(
        choice::either(inside, a, 0),
        choice::either(inside, b, F32::ONE.0),
    )
}

// The word, or 0 in the place of one past the gate of cos and sin.
fn within(w: u32) -> u32
    ensures { result ≡ cond (leb (magnitude binary32 w) 0x4380_0000) w 0 }
{
    choice::either(F32(w).without_sign().0 <= COS_END, w, 0)
}

// cos of any word.
fn raw_cos(w: u32) -> u32
    ensures { result ≡ cos_word ieee w }
{
    if F32(w).without_sign().0 <= RAW_COS_END {
        return cosine::cos(w);
    }
    cos::of_word(w)
}

// sin of any word.
fn raw_sin(w: u32) -> u32
    ensures { result ≡ sin_word ieee w }
{
    if F32(w).without_sign().0 <= COS_END {
        return cosine::sin(w);
    }
    F32(w).sin().0
}
