//! The tests of the crates of clocks, gains, samples, units, rates, rings and settling, through their public calls: worked values, and
//! that a call with ample memory finds it. They stand in a crate of their own, since a crate with tests is proved twice.
#![tactic(auto)]

/// Nominal values, and ticks.
#[cfg(test)]
mod clock;
/// Gains and scaling.
#[cfg(test)]
mod gain;
/// Samples, packets and tones.
#[cfg(test)]
mod pcm;
/// The pace of packets, reports and steadiness.
#[cfg(test)]
mod rate;
/// The ring of a stream.
#[cfg(test)]
mod ring;
/// How long a stream takes to come home.
#[cfg(test)]
mod settle;
/// Units in boxes, and meters.
#[cfg(test)]
mod units;
