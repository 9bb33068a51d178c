//! A second Vulkan machine, written from the words of the standard and as slow as it likes, and random steps that are fed to
//! it and to the proved machine.
#![tactic(auto)]

#[cfg(test)]
mod access_names;
#[cfg(test)]
mod barrier_rules;
#[cfg(test)]
mod batches;
#[cfg(test)]
mod command_rules;
#[cfg(test)]
mod dice;
#[cfg(test)]
mod effects;
#[cfg(test)]
mod host_rules;
#[cfg(test)]
mod journal_rows;
#[cfg(test)]
mod moves;
#[cfg(test)]
mod parts;
#[cfg(test)]
mod random_batches;
#[cfg(test)]
mod random_commands;
#[cfg(test)]
mod random_steps;
#[cfg(test)]
mod registers;
#[cfg(test)]
mod routine_stores;
#[cfg(test)]
mod rule_rows;
#[cfg(test)]
mod runner_rows;
#[cfg(test)]
mod runs;
#[cfg(test)]
mod slow_machine;
#[cfg(test)]
mod steps;
#[cfg(test)]
mod tests;
#[cfg(test)]
mod value_rules;
#[cfg(test)]
mod word_accesses;
#[cfg(test)]
mod words;
