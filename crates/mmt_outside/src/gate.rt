//! A gate before each install of a verdict. A test can hold a worker there.

use std::sync::Wait;

/// What a worker passes before it installs a verdict.
pub trait Gate {
    /// Called before a worker installs the verdict of a module. The call may wait.
    fn before_install<R: Wait>(&self, rt: &R, worker: u32, name: &str);
}

/// The gate that is always open.
#[derive(Clone, Copy, Debug, PartialEq, Eq)]
pub struct OpenGate;

impl Gate for OpenGate {
    fn before_install<R: Wait>(&self, _rt: &R, _worker: u32, _name: &str) {}
}
