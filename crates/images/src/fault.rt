// What stops a program that builds tables: no memory or output, a refusal where none is due, a table that is not built.
use build::Unbuilt;
use std::io;
use thiserror::Error;
use trees::Refusal;

#[derive(Debug, Drop, Error)]
pub enum Fault {
    #[error("{0}")]
    Io(#[from] io::Error),
    #[error("{0}")]
    Refused(#[from] Refusal),
    #[error("a table is not built: {0}")]
    Unbuilt(#[from] Unbuilt),
}
