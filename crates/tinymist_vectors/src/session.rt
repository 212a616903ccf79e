//! Sessions through the program's top call, beside the plain slow program.

mod arguments;
mod both;
mod clean;
mod clean_mixed;
mod edits;
mod grammar;
mod ids;
mod library;
mod limits;
mod memory;
mod mixed;
mod sources;
mod streams;
mod views;
