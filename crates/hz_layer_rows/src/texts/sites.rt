//! Sites of names.

use crate::written::text_of;
use hz_check_reservations::{Site, earlier};
use hz_regexp::Name;
use std::alloc::{AllocError, Global};

/// The name of the earlier of two sites.
fn name_of_earlier<'a>(first: (u32, &'a Name), second: (u32, &'a Name)) -> Option<&'a Name> {
    let one = Site {
        line: 1,
        form: first.0,
        name: first.1,
    };
    let other = Site {
        line: 1,
        form: second.0,
        name: second.1,
    };
    Some(earlier(Some(one), Some(other))?.name)
}

/// Which of `first` and `second`, names in the forms of two numbers, is the earlier one.
pub fn answer(alloc: Global, text: &[u8]) -> Result<String, AllocError> {
    let (one, other) = text_of(text).split_once(' ').unwrap_or(("", ""));
    let (Ok(one), Ok(other)) = (one.parse::<u32>(), other.parse::<u32>()) else {
        return String::from_str(alloc, "no numbers");
    };
    let (Some(first), Some(second)) = (Name::of(alloc, b"first")?, Name::of(alloc, b"second")?)
    else {
        return String::from_str(alloc, "no names");
    };
    match name_of_earlier((one, &first), (other, &second)) {
        Some(name) => String::from_str(alloc, text_of(name.bytes())),
        None => String::from_str(alloc, "none"),
    }
}
