//! Logs and bodies at the ends of their ranges, and damaged ones. Expected values come from
//! docs/FORMATS.md.

#![tactic(auto)]

#[cfg(test)]
mod adding;
#[cfg(test)]
mod bodies;
#[cfg(test)]
mod forms;
