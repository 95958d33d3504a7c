//! Worked values of the carriers, as tests.
#![tactic(auto)]

#[cfg(test)]
mod held_lines;
#[cfg(test)]
mod other_carrier;
#[cfg(test)]
mod owners;
#[cfg(test)]
mod refusals;
