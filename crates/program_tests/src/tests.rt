//! The tests, by what they run.
mod counted;
mod dark_streams;
mod entering;
mod faults;
mod gates;
mod level_streams;
mod limits;
mod plan_streams;
mod planning;
mod ring_caves;
mod row_streams;
mod search;
mod terraces;
mod through;
mod told_regions;
mod worlds;
