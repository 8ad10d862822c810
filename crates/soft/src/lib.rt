// Binary32 worked out on words with whole numbers alone: add, subtract, multiply and divide, each
// rounded once to the nearest word, and floor, cos, sin and the arctangent on them. No function here
// has a float. `soft_c` is the static library of it, for a controller without floats; `dampmeadow`
// exports the same calls.
#![tactic(auto)]

pub mod add;
pub mod atan;
pub mod cos;
pub mod div;
pub mod floor;
pub mod mul;
pub mod parts;
pub mod rounding;
pub mod sin;
