// What a worker calls before each turn of an isolate.
use std::marker::Sync;

/// What a worker calls before each turn, with the isolate's number and the turn's. No contract rests on it.
pub trait Gate: Sync {
    fn enter(&self, isolate: u32, turn: u64);
}

/// A gate that does nothing.
#[derive(Clone, Copy, Debug)]
pub struct OpenGate;

impl Gate for OpenGate {
    fn enter(&self, _isolate: u32, _turn: u64) {}
}
