// Why there is no value, where memory may run out too.
use std::alloc::{AllocError, AllocFailed};

#[derive(Drop)]
pub enum Failure<R> {
    Refused(R),
    OutOfMemory,
}

impl<R> From<AllocError> for Failure<R> {
    fn from(_error: AllocError) -> Failure<R> {
        Failure::OutOfMemory
    }
}

impl<R, T: Drop> From<AllocFailed<T>> for Failure<R> {
    fn from(_error: AllocFailed<T>) -> Failure<R> {
        Failure::OutOfMemory
    }
}

// The value or the refusal, both of which are answers, unless memory ran out.
pub fn answered<T, R>(outcome: Result<T, Failure<R>>) -> Result<Result<T, R>, AllocError> {
    match outcome {
        Ok(value) => Ok(Ok(value)),
        Err(Failure::Refused(refusal)) => Ok(Err(refusal)),
        Err(Failure::OutOfMemory) => Err(AllocError),
    }
}
