// The program's standard output. Outside this module nothing moves a printer on but `print`, which alone writes.
ghost use Rattle.std.specs.Prelude.{◌≡◌, ◌+◌, length, IfOk};
ghost use Rattle.obligations.specs.Output.{StandsAt};

use std::io;
use std::io::Stdout;

// Where the output goes, and how many bytes of it were printed. Where writing some of them fails it is gone, so no more are printed.
#[derive(Drop)]
pub struct Printer {
    stdout: Stdout,
    at: usize,
}

impl Printer {
    pub fn start(stdout: Stdout) -> Self
        ensures { result.at ≡ 0 }
    {
        Self { stdout, at: 0 }
    }

    // Prints the part of a table's output that begins where the printer stands.
    pub fn print(self, bytes: &[u8], part: &[u8]) -> io::Result<Self>
        requires { StandsAt bytes.now self.at part.now }
        ensures { IfOk result (λ printer. printer.at ≡ self.at + length part.now) }
    {
        let Self { stdout, at } = self;
        stdout.write_all(part)?;
        Ok(Self {
            stdout,
            at: at + part.len(),
        })
    }
}
