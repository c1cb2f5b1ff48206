//! Values that are made, and where they are stored.

use crate::answer::Stop;

/// A value of any type that one call can drop.
pub struct Held<T> {
    pub value: T,
}

impl<T: Drop> Drop for Held<T> {
    fn drop(self) {
        let Held { value: _ } = self;
    }
}

impl<T> Held<T> {
    /// Returns the value.
    pub fn into_value(self) -> T {
        let Held { value } = self;
        value
    }
}

/// Returns the value of an answer. If there is none, the field that it was made from is wrong.
pub fn taken<T: Drop, E: Drop>(answer: Result<T, E>) -> Result<T, Stop> {
    match answer {
        Ok(value) => Ok(value),
        Err(_) => Err(Stop::Field),
    }
}

/// Returns the value of an answer that can only fail when memory runs out.
pub fn had<T: Drop, E: Drop>(answer: Result<T, E>) -> Result<T, Stop> {
    match answer {
        Ok(value) => Ok(value),
        Err(_) => Err(Stop::OutOfMemory),
    }
}

/// Appends a value, if it was made.
pub fn push<T: Drop>(all: &mut Vec<T>, made: Result<T, Stop>) -> Result<(), Stop> {
    match made {
        Ok(value) => had(all.push(value)),
        Err(stop) => Err(stop),
    }
}

/// Replaces the value of `slot`, if the new one was made.
pub fn put<T: Drop>(slot: &mut T, made: Result<T, Stop>) -> Result<(), Stop> {
    match made {
        Ok(value) => {
            *slot = value;
            Ok(())
        }
        Err(stop) => Err(stop),
    }
}

/// Drops a value.
pub fn let_go<T: Drop>(_value: T) {}

/// Returns a value, if everything else was made too.
pub fn if_made<T: Drop>(value: T, all: Result<(), Stop>) -> Result<T, Stop> {
    match all {
        Ok(()) => Ok(value),
        Err(stop) => Err(stop),
    }
}
