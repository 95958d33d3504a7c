//! What a sender answers and leaves, as tests.
#![tactic(auto)]

#[cfg(test)]
mod loading;
#[cfg(test)]
mod mapping;
#[cfg(test)]
mod memory;
#[cfg(test)]
mod refusals;
