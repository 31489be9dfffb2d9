// A printer for which a write that fails is as one that succeeds, so that what comes after it is tried too.
use std::{fmt, io};

#[derive(Drop)]
pub struct Tried<'a, P>(pub &'a P);

impl<P: Print> Print for Tried<'_, P> {
    fn print<D: fmt::Display + Drop>(&self, value: D) -> io::Result<()> {
        let _ = self.0.print(value);
        Ok(())
    }

    fn println<D: fmt::Display + Drop>(&self, value: D) -> io::Result<()> {
        let _ = self.0.println(value);
        Ok(())
    }

    fn write_all(&self, bytes: &[u8]) -> io::Result<()> {
        let _ = self.0.write_all(bytes);
        Ok(())
    }
}
