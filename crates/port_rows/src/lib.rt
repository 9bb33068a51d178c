//! Rows of the plain device: what it answers, and which of its calls are lost.
#![tactic(auto)]

#[cfg(test)]
mod device_rows;
