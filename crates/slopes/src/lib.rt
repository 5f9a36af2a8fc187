// Slopes that are built: Fritsch and Butland's mean at inner points, PCHIM's end rule at the ends, and the secant where there are two points alone.
#![tactic(auto)]

mod point;
mod rule;
mod run;
mod whole;

pub use point::renew;
pub use whole::build;
