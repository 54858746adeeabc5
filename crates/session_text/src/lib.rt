//! Text of sessions: the lines of commands, the report of what a session answered and coded, and the lines of packets.
#![tactic(auto)]

mod command_lines;
mod packet_lines;
mod pass_report;
mod report;
mod summary;

pub use command_lines::write_command;
pub use packet_lines::packets_text;
pub use pass_report::pass_report_text;
pub use report::{ReportOptions, report_text};
pub use summary::summary_text;
