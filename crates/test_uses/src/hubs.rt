//! Channels by name, with requests one by one and as lists.
mod asked;
mod collisions;
mod memory;
mod rows;
mod tables;
