//! The errors: what they print, return, give back and equal.
mod texts;
mod values;
