//! A gate that is always open.
use crate::traits::{Gate, Step};
use ql_types::Place;
use std::sync::Wait;

/// A gate that lets each worker through at once.
#[derive(Clone, Copy, Debug, PartialEq, Eq)]
pub struct FreeGate;

impl Gate for FreeGate {
    fn at<R: Wait + Sync>(&self, _rt: &R, _place: Place, _step: Step) {}
}
