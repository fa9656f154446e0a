// What a program writes.
ghost use Rattle.std.specs.Prelude.{IfOk};
ghost use Rattle.files.specs.Outputs.{Tells};

use crate::error::LoadError;
use crate::file::FileFault;
use std::alloc::AllocError;

// The text, and the fault that it ends with, if there is one. The text is bytes, since a names line is written as it stands in its file.
#[derive(Drop)]
pub struct Output {
    pub text: Vec<u8>,
    pub fault: Option<FileFault>,
}

impl Output {
    // The text as far as it went, and behind it the fault that stopped it.
    pub fn stopped(mut text: Vec<u8>, error: LoadError) -> Result<Output, AllocError>
        ensures { IfOk result (λ o. Tells text.items error o) }
    {
        let fault = error.fault()?;
        let lines = format!(in *text.allocator(); "{fault}")?;
        text.extend_from_slice(lines.as_bytes())?;
        Ok(Output {
            text,
            fault: Some(fault),
        })
    }
}
