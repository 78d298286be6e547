//! Worked searches, by what they are of.
mod lanes;
mod rings;
mod shortened;
mod told_turns;
mod turns;
