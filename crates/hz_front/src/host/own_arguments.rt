//! The arguments after the program's own name.

use std::alloc::{Alloc, Global};
use std::env::FillError;
use std::rt::Env;

/// An environment whose arguments begin after the program's own name, which so need not be text.
#[derive(Drop)]
pub struct OwnArguments<'a, R> {
    pub rt: &'a R,
}

impl<R: Env> Env for OwnArguments<'_, R> {
    fn arg(&self, i: usize, buf: &mut [u8]) -> Result<usize, FillError> {
        self.rt.arg(i.saturating_add(1), buf)
    }

    fn var(&self, name: &str, buf: &mut [u8]) -> Result<usize, FillError> {
        self.rt.var(name, buf)
    }

    fn var_at(&self, i: usize, buf: &mut [u8]) -> Result<usize, FillError> {
        self.rt.var_at(i, buf)
    }
}

impl<R: AllocGlobal> Alloc for OwnArguments<'_, R> {
    type A = Global;

    fn alloc(&self) -> Global {
        self.rt.alloc()
    }
}
