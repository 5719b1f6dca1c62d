//! The expected values were worked out apart from the program.

mod bytes;
mod files;
mod messages;
mod numbers;
mod records;
mod sights;
mod slow;
mod states;
mod talks;
mod territories;
