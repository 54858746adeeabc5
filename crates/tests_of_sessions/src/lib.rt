//! Tests of sessions: lists of calls, contexts called one call at a time, two passes, the scripted parts, and reports.
#![tactic(auto)]

#[cfg(test)]
mod contexts;
#[cfg(test)]
mod error_texts;
#[cfg(test)]
mod listed_calls;
#[cfg(test)]
mod passes;
#[cfg(test)]
mod report_lines;
#[cfg(test)]
mod rows;
#[cfg(test)]
mod scripted_parts;
#[cfg(test)]
mod settings;
#[cfg(test)]
mod sized_coder;
#[cfg(test)]
mod steps;
