use std::env::{Env, FillError};
use std::{env, io};

/// An environment whose first word is the one behind the program's name.
#[derive(Drop)]
struct BehindName<'a> {
    env: &'a HostRuntime,
}

impl Env for BehindName<'_> {
    fn arg(&self, i: usize, buf: &mut [u8]) -> Result<usize, FillError> {
        match i.checked_add(1) {
            Some(next) => self.env.arg(next, buf),
            None => Err(FillError::NotPresent),
        }
    }

    fn var(&self, name: &str, buf: &mut [u8]) -> Result<usize, FillError> {
        self.env.var(name, buf)
    }

    fn var_at(&self, i: usize, buf: &mut [u8]) -> Result<usize, FillError> {
        self.env.var_at(i, buf)
    }
}

/// The words of the command line behind the program's name. The name, and the folder in it, may be no text, so it is
/// not read.
///
/// # Errors
///
/// Where one of the words is no text, or there is no memory.
pub fn words_behind_name(rt: &HostRuntime) -> io::Result<Vec<String>> {
    let behind = BehindName { env: rt };
    let words = env::args(&(behind, rt.alloc()))?.collect(rt.alloc())?;
    Ok(words)
}
