//! The lines that a run prints: each as what it says, its spelling, and its writer.
#![tactic(auto)]

/// The lines of frames.
mod frames;
/// What the bytes of these lines tell.
pub mod laws;
/// The lines of packets, levels and feedback.
mod packets;
/// The lines of the report.
mod report;
/// The lines of the descriptor's end and of a microframe's number.
mod starts;
/// The lines of control transfers.
mod transfers;
/// The lines that name an element of the host's view.
mod views;
/// Words of several lines.
mod pieces;

pub use frames::{push_played, write_frame, write_played};
pub use packets::{write_feedback, write_in, write_level, write_out, write_over, write_under};
pub use pieces::{push_lost_or_ok, push_number_or_dash, push_stream};
pub use report::{
    write_domain, write_in_stream, write_meter, write_out_stream, write_renders, write_steady,
    write_time,
};
pub use starts::{write_microframe, write_ready};
pub use transfers::{write_broken, write_done, write_given, write_stalled};
pub use views::{write_set, write_set_stalled, write_unknown, write_value, write_view_broken};
