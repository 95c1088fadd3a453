//! Why a part of a packet or a record can't be read, and the error of running out of memory.

ghost use Rattle.std.specs.Prelude.{◌≡◌};

use std::alloc::{AllocError, AllocFailed};
use thiserror::Error;

/// Out of memory.
#[derive(Clone, Copy, Debug, PartialEq, Eq, Error)]
#[error("NoMemory")]
pub struct NoMemory;

impl From<AllocError> for NoMemory {
    fn from(_error: AllocError) -> NoMemory {
        NoMemory
    }
}

impl<T: Drop> From<AllocFailed<T>> for NoMemory {
    fn from(_error: AllocFailed<T>) -> NoMemory {
        NoMemory
    }
}

/// Why a part can't be read.
#[derive(Clone, Copy, Debug, PartialEq, Eq, Error)]
pub enum WireError {
    /// Fewer bytes remain than the part needs.
    #[error("Short")]
    Short = 1,
    /// The string isn't UTF-8.
    #[error("NotText")]
    NotText = 2,
    /// Bytes follow where nothing may.
    #[error("Trailing")]
    Trailing = 3,
}

/// Why a record isn't read.
#[derive(Clone, Copy, Debug, PartialEq, Eq, Error)]
pub enum RecordError {
    #[error("out of memory")]
    NoMemory,
    /// The bytes aren't those of a record.
    #[error("not a record")]
    NotARecord,
}

impl From<NoMemory> for RecordError {
    fn from(_error: NoMemory) -> RecordError {
        RecordError::NoMemory
    }
}

impl From<WireError> for RecordError {
    fn from(_error: WireError) -> RecordError {
        RecordError::NotARecord
    }
}
