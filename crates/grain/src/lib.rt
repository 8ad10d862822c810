// Grain statistics: a running mean and the summed square deviation from it, kept in a record that one
// offer after another changes in place.
#![tactic(auto)]

ghost use Rattle.std.specs.Prelude.{◌≡◌, ◌+◌, ◌<◌};
ghost use Rattle.refusals.specs.Given.{refusal_given};
ghost use Rattle.grain.specs.Grain.{fresh, most_offers, most_samples, taken, turned_away, Leaves};

use float::{F32, cast};
use format::Number;
use refusals::Refusal;

// How many samples were taken and how many refused, the mean of those taken, and the sum of their
// squared deviations from it. Laid out as C lays it out.
#[repr(C)]
#[derive(Clone, Copy)]
pub struct Grain {
    pub count: u32,
    pub refused: u32,
    pub mean: f32,
    pub sum: f32,
}

impl Grain {
    pub const MOST_OFFERS: u64 = 0xffff_ffff;

    pub const MOST_SAMPLES: u32 = 65_536;
    // 2^20, as the word of a float
    pub const LARGEST: u32 = 0x4980_0000;

    // A record of no samples.
    pub fn new() -> Grain
        ensures { result ≡ fresh }
    {
        Grain {
            count: 0,
            refused: 0,
            mean: 0.0,
            sum: 0.0,
        }
    }

    // Offers a sample. It is refused where the record has counted all the offers that it can, and
    // nothing changes then; else an infinity or a NaN, a size above 2^20 and a sample to a full record
    // are, in this order, and one more is refused.
    pub fn offer(&mut self, sample: F32) -> Result<(), Refusal>
        ensures { Leaves self.old sample.0 (refusal_given result) self.new }
    {
        if self.count as u64 + self.refused as u64 >= Grain::MOST_OFFERS {
            return Err(Refusal::WornOut);
        }
        if sample.extract_exponent_bits() == 255 {
            *self = turned_away(*self);
            return Err(Refusal::NotFinite);
        }
        if sample.without_sign().0 > Grain::LARGEST {
            *self = turned_away(*self);
            return Err(Refusal::Outside);
        }
        if self.count >= Grain::MOST_SAMPLES {
            *self = turned_away(*self);
            return Err(Refusal::Full);
        }
        *self = taken(*self, sample.value());
        Ok(())
    }
}

// One more refused, and the statistics as they were.
#[tactic(auto, unfolding(crate::specs::Grain::turned_away))]
fn turned_away(g: Grain) -> Grain
    requires { g.count + g.refused < most_offers }
    ensures { result ≡ turned_away g }
{
    Grain {
        count: g.count,
        refused: g.refused + 1,
        mean: g.mean,
        sum: g.sum,
    }
}

// One more sample, in Welford's steps, each rounded once.
#[tactic(auto, unfolding(crate::specs::Grain::taken))]
fn taken(g: Grain, x: f32) -> Grain
    requires { g.count < most_samples }
    ensures { result ≡ taken g x }
{
    let n = g.count + 1;
    let d = x - g.mean;
    let mean = g.mean + d / cast::from_u32(n);
    let sum = g.sum + d * (x - mean);
    Grain {
        count: n,
        refused: g.refused,
        mean: mean,
        sum: sum,
    }
}
