//! Runs over a shelf and a sink in memory. The lines were worked out by hand and the digests by another program; a program
//! that always answers that it has no memory is refused here.

mod commands;
mod edge;
mod one_file;
mod reads;
mod rooms;
mod words;
mod writes;
