//! What a receiver answers, as tests.
#![tactic(auto)]

#[cfg(test)]
mod asks;
#[cfg(test)]
mod lines;
#[cfg(test)]
mod offers;
#[cfg(test)]
mod transfers;
