// Why there is no reply.
ghost use Rattle.std.specs.Prelude.{◌≡◌};
ghost use Rattle.std.specs.Process.{exit_status};
ghost use Rattle.replay.specs.Status.{status_of};

use std::process::ExitCode;
use std::{fmt, io};

#[derive(Debug, Drop)]
pub enum Failure {
    // the arguments can't be read
    Arguments(io::Error),
    // there are not two of them
    Usage,
    // the file of this name can't be opened
    Open(String, io::Error),
    // reading one of the two files fails
    Table(io::Error),
    Log(io::Error),
    // no row can tell the reply
    TooLong,
    // the reply can't be written
    Output(io::Error),
}

impl Failure {
    // The exit status: 1 where reading or writing failed, else 0.
    pub fn status(&self) -> ExitCode
        ensures { exit_status result ≡ status_of self.now }
    {
        match self {
            Failure::Usage | Failure::TooLong => ExitCode::SUCCESS,
            _ => ExitCode::FAILURE,
        }
    }
}

impl fmt::Display for Failure {
    fn fmt<W: fmt::Write>(&self, f: &mut fmt::Formatter<W>) -> fmt::Result {
        match self {
            Failure::Arguments(error) => write!(f, "the arguments: {error}"),
            Failure::Usage => f.write_str("usage: replay TABLE LOG"),
            Failure::Open(path, error) => write!(f, "{path}: {error}"),
            Failure::Table(error) => write!(f, "the table: {error}"),
            Failure::Log(error) => write!(f, "the log: {error}"),
            Failure::TooLong => f.write_str("the log has more rows than a row can tell"),
            Failure::Output(error) => write!(f, "standard output: {error}"),
        }
    }
}
