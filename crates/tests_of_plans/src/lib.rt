//! Tests of what settings, frames, streams, plans and the display machine promise in public.
#![tactic(auto)]

#[cfg(test)]
mod color_codes;
#[cfg(test)]
mod display_machine;
#[cfg(test)]
mod encoder_counts;
#[cfg(test)]
mod frames;
#[cfg(test)]
mod lists;
#[cfg(test)]
mod places;
#[cfg(test)]
mod plans;
#[cfg(test)]
mod pyramids;
#[cfg(test)]
mod refused_settings;
#[cfg(test)]
mod schedules;
#[cfg(test)]
mod settings;
#[cfg(test)]
mod speed_presets;
#[cfg(test)]
mod standard_streams;
#[cfg(test)]
mod streams;
#[cfg(test)]
mod texts;
