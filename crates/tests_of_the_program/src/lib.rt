//! Tests of scripts: the lines that are read, the lines that are refused, the script of a large run.
#![tactic(auto)]

#[cfg(test)]
mod configurations;
#[cfg(test)]
mod generated_scripts;
#[cfg(test)]
mod refused_lines;
#[cfg(test)]
mod script_texts;
#[cfg(test)]
mod scripts;
#[cfg(test)]
mod settings;
