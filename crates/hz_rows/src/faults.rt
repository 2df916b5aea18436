//! What cannot be read.

use std::io::{self, ErrorKind};

/// The error of a line or a row that says nothing.
pub fn unreadable() -> io::Error {
    ErrorKind::InvalidData.into()
}

/// Whether the error is of a line or a row that says nothing.
pub fn is_unreadable(error: &io::Error) -> bool {
    error.kind() == ErrorKind::InvalidData
}

/// The number that the digits are.
pub fn number(digits: &str) -> io::Result<u64> {
    let Ok(number) = digits.parse::<u64>() else {
        return Err(unreadable());
    };
    Ok(number)
}

/// The number of one byte that the digits are.
pub fn small_number(digits: &str) -> io::Result<u8> {
    let Ok(number) = digits.parse::<u8>() else {
        return Err(unreadable());
    };
    Ok(number)
}
