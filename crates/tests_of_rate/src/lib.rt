//! Tests of what the crates of rate control promise in public: statistics, windows, tables, searches, selection.
#![tactic(auto)]

#[cfg(test)]
mod controlled_frames;
#[cfg(test)]
mod controlled_passes;
#[cfg(test)]
mod controllers;
#[cfg(test)]
mod fixed_point;
#[cfg(test)]
mod frame_statistics;
#[cfg(test)]
mod metrics_windows;
#[cfg(test)]
mod pass_pieces;
#[cfg(test)]
mod quantiser_tables;
#[cfg(test)]
mod rate_models;
#[cfg(test)]
mod sessions_kept;
