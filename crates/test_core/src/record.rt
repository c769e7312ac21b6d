//! Logs and recorders.
mod entries;
mod logs;
mod recorders;
mod replays;
