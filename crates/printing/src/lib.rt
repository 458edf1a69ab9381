// A printer for programs whose output goes on behind a write that fails.
#![tactic(auto)]

ghost use Rattle.std.specs.Prelude.{IsOk};

use std::fmt::Display;
use std::io;

// Writes as the printer inside it does, and passes over what cannot be written: what one call is handed, or the rest of it.
#[derive(Clone, Copy)]
pub struct Onward<P>(pub P);

impl<P: Print> Print for Onward<P> {
    fn print<D: Display + Drop>(&self, value: D) -> io::Result<()>
        ensures { IsOk result }
    {
        let _ = self.0.print(value);
        Ok(())
    }

    fn println<D: Display + Drop>(&self, value: D) -> io::Result<()>
        ensures { IsOk result }
    {
        let _ = self.0.println(value);
        Ok(())
    }

    fn write_all(&self, bytes: &[u8]) -> io::Result<()>
        ensures { IsOk result }
    {
        let _ = self.0.write_all(bytes);
        Ok(())
    }
}
