//! Worked values of the code, as tests.
#![tactic(auto)]

#[cfg(test)]
mod code;
#[cfg(test)]
mod lines;
#[cfg(test)]
mod places;
#[cfg(test)]
mod refusals;
