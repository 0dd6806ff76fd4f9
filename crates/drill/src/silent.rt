// Where what a run prints goes: nowhere.
use std::fmt::Display;
use std::io;

/// Prints nothing.
#[derive(Clone, Copy)]
pub struct Silent;

impl Print for Silent {
    fn print<D: Display + Drop>(&self, _value: D) -> io::Result<()> {
        Ok(())
    }

    fn println<D: Display + Drop>(&self, _value: D) -> io::Result<()> {
        Ok(())
    }

    fn write_all(&self, _bytes: &[u8]) -> io::Result<()> {
        Ok(())
    }
}
