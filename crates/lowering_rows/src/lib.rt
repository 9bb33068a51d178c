//! Rows of lowered lists, worked out by hand from the tables in words.
#![tactic(auto)]

#[cfg(test)]
mod list_rows;
#[cfg(test)]
mod recorded_rows;
#[cfg(test)]
mod startup_rows;
