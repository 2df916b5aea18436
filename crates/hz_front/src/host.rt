//! What a program has of its host: the words of the command line, the files and standard output.

mod arguments;
mod own_arguments;
mod real;

pub use arguments::words;
pub use real::{RealFiles, RealSink, read_again};
