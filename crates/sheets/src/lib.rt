// The zone sheet: for each zone, how many samples are inside it, how many of these have a reading,
// and the sum of those readings.
#![tactic(auto)]

mod hundredths;
mod samples;
pub mod sheet;
pub mod subtotal;
mod walk;
