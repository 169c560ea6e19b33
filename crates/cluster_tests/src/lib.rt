//! Whole clusters: runs, openings, cuts, full logs and damaged ones. Expected values come from
//! docs/PROTOCOL.md, docs/REFUSALS.md and docs/FORMATS.md.

#![tactic(auto)]

#[cfg(test)]
mod cuts;
#[cfg(test)]
mod damaged_logs;
#[cfg(test)]
mod full_logs;
#[cfg(test)]
mod helpers;
#[cfg(test)]
mod mixed_banks;
#[cfg(test)]
mod opening;
#[cfg(test)]
mod refusals;
#[cfg(test)]
mod runs;
#[cfg(test)]
mod shortcuts;
