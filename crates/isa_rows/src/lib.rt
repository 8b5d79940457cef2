//! Rows for the tables of both instruction sets, their effects, runs of the flat machine, and units of the first form.
#![tactic(auto)]

#[cfg(test)]
mod a64_effects;
#[cfg(test)]
mod a64_words;
#[cfg(test)]
mod first_units;
#[cfg(test)]
mod flat_runs;
#[cfg(test)]
mod x64_effects;
#[cfg(test)]
mod x64_events;
#[cfg(test)]
mod x64_refusals;
#[cfg(test)]
mod x64_spellings;
