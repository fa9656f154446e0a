// Why the files are not loaded.
ghost use Rattle.std.specs.Prelude.{◌≡◌, Ok, Err};
ghost use Rattle.files.specs.declared.error.LoadError.TheVariants as errors;
ghost use Rattle.files.specs.Errors.{outcome_of};

use crate::file::FileFault;
use std::alloc::AllocError;

#[derive(Clone, Copy, PartialEq, Eq, Debug)]
pub enum LoadError {
    // the first fault of the files
    Fault(FileFault),
    // there was no memory
    Alloc(AllocError),
}

impl LoadError {
    // The fault, unless memory was lacking.
    pub fn fault(self) -> Result<FileFault, AllocError>
        ensures { result ≡ outcome_of self }
    {
        match self {
            LoadError::Fault(fault) => Ok(fault),
            LoadError::Alloc(error) => Err(error),
        }
    }
}

impl From<FileFault> for LoadError {
    ghost from_gives = { λ found error. error ≡ errors.Fault found };

    fn from(found: FileFault) -> LoadError {
        LoadError::Fault(found)
    }
}

impl From<AllocError> for LoadError {
    ghost from_gives = { λ lack error. error ≡ errors.Alloc lack };

    fn from(lack: AllocError) -> LoadError {
        LoadError::Alloc(lack)
    }
}
