//! Rows of the tables and of the small crates, with answers from the standards and by hand.
#![tactic(auto)]

#[cfg(test)]
mod barrier_rows;
#[cfg(test)]
mod choice_rows;
#[cfg(test)]
mod clock_rows;
#[cfg(test)]
mod fence_rows;
#[cfg(test)]
mod flag_rows;
#[cfg(test)]
mod io_rows;
#[cfg(test)]
mod journal_rows;
#[cfg(test)]
mod line_rows;
#[cfg(test)]
mod lower_rows;
#[cfg(test)]
mod resource_rows;
#[cfg(test)]
mod routine_rows;
#[cfg(test)]
mod signature_rows;
#[cfg(test)]
mod state_rows;
#[cfg(test)]
mod support_rows;
#[cfg(test)]
mod tree_rows;
