//! Rows of texts that are read or refused, and of what is printed of runs.
#![tactic(auto)]

#[cfg(test)]
mod limits;
#[cfg(test)]
mod misses;
#[cfg(test)]
mod outputs;
#[cfg(test)]
mod printed;
#[cfg(test)]
mod statuses;
#[cfg(test)]
mod traces;
