// Why the program ends with status 1.
use anyhow::anyhow;
use std::error::Error;
use std::fmt;

#[derive(Drop)]
pub enum Failure {
    // The arguments are no command.
    Usage,
    // A flow file or a literal is refused: what is said to people.
    Refused(String),
    // Reading, printing or memory failed.
    Other(anyhow::Error),
}

impl<E: Error> From<E> for Failure {
    fn from(error: E) -> Failure {
        Failure::Other(anyhow!(error))
    }
}

// As it is printed where the program ends.
impl fmt::Debug for Failure {
    fn fmt<W: fmt::Write>(&self, f: &mut fmt::Formatter<W>) -> fmt::Result {
        match self {
            Failure::Usage => f.write_str(crate::USAGE),
            Failure::Refused(message) => f.write_str(message.as_str()),
            Failure::Other(error) => fmt::Debug::fmt(error, f),
        }
    }
}
