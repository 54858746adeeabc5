//! Tests of queues, ends, workers and channels, and of jobs coded side by side.
#![tactic(auto)]

#[cfg(test)]
mod boards;
#[cfg(test)]
mod channels;
#[cfg(test)]
mod core_steps;
#[cfg(test)]
mod courses;
#[cfg(test)]
mod ends_of_frames;
#[cfg(test)]
mod ends_of_packets;
#[cfg(test)]
mod ends_of_pass_data;
#[cfg(test)]
mod error_texts;
#[cfg(test)]
mod job_numbers;
#[cfg(test)]
mod jobs;
#[cfg(test)]
mod maker;
#[cfg(test)]
mod queue_calls;
#[cfg(test)]
mod settings;
#[cfg(test)]
mod threads;
#[cfg(test)]
mod workers;
