//! Where it is written what became of lines.

ghost use Rattle.std.specs.Prelude.{OnOk};
ghost use Rattle.kp_publish.specs.Files.{Adds, Shows};

use crate::fault::PublishFault;
use kp_send::Texts;
use std::io::{self, Write};

/// Where it is written what became of lines, as far as it is wanted.
#[derive(Drop)]
pub struct Files<F> {
    /// Takes `LINE PARTITION OFFSET` of each line that was delivered.
    pub offsets: Option<F>,
    /// Takes the lines that can be sent again, as they came.
    pub undelivered: Option<F>,
    /// Takes the lines that may stand in the log or not, as they came.
    pub unknown: Option<F>,
}

impl<F: Write> Files<F> {
    /// Writes the texts.
    pub(crate) fn write(&mut self, texts: &Texts) -> Result<(), PublishFault>
        ensures { OnOk result (Shows F.contents self.old texts.now self.new) }
    {
        if write(&mut self.offsets, &texts.offsets).is_err() {
            return Err(PublishFault::Offsets);
        }
        if write(&mut self.undelivered, &texts.undelivered).is_err() {
            return Err(PublishFault::Undelivered);
        }
        match write(&mut self.unknown, &texts.unknown) {
            Ok(()) => Ok(()),
            Err(_) => Err(PublishFault::Unknown),
        }
    }
}

/// Writes a text, where it is wanted.
fn write<F: Write>(file: &mut Option<F>, text: &[u8]) -> io::Result<()>
    ensures { OnOk result (Adds F.contents file.old text.now file.new) }
{
    match file {
        None => Ok(()),
        Some(file) => file.write_all(text),
    }
}
