// Why a program stops early.
ghost use Rattle.std.specs.Prelude.{◌≡◌};
ghost use Rattle.console.specs.declared.fault.Fault.TheVariants.{Io, Memory};

use std::alloc::AllocError;
use std::{fmt, io};
use thiserror::Error;

/// Why a program stops early. What it then says on standard error is the fault's text.
#[derive(Debug, Drop, Error)]
pub enum Fault {
    #[error("there is not enough memory")]
    Memory,
    #[error("{0}")]
    Input(&'static str),
    #[error("{0}")]
    Io(io::Error),
}

// The conversions that thiserror writes have no contract.
impl From<AllocError> for Fault {
    ghost from_gives = { λ _ r. r ≡ Memory };

    fn from(_why: AllocError) -> Fault {
        Fault::Memory
    }
}

// For what prints into memory, which fails only for want of it.
impl From<fmt::Error> for Fault {
    ghost from_gives = { λ _ r. r ≡ Memory };

    fn from(_why: fmt::Error) -> Fault {
        Fault::Memory
    }
}

impl From<io::Error> for Fault {
    ghost from_gives = { λ why r. r ≡ Io why };

    fn from(why: io::Error) -> Fault {
        Fault::Io(why)
    }
}
