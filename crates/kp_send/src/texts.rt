//! What is to be written of lines that were told of.

ghost use Rattle.std.specs.Prelude.{◌≡◌, ◌++◌, ◌∷◌, [], OnErr, OnOk};
ghost use Rattle.kp_send.specs.Telling.{counted};
ghost use Rattle.kp_send.specs.Texts.{IsEmpty, line_text, offset_text, Writes};

use crate::telling::{Keep, Tellings, keep_of, put_place};
use crate::told::Told;
use kp_wire::Blob;
use std::alloc::{AllocError, Global};

/// What is to be written of lines that were told of.
#[derive(Debug, Drop)]
pub struct Texts {
    /// Whether it is wanted where those stand that were delivered.
    pub places: bool,
    /// Where they stand, if that is wanted.
    pub offsets: Vec<u8>,
    /// Why others were not.
    pub said: Vec<u8>,
    /// Those that can be sent again, as they came.
    pub undelivered: Vec<u8>,
    /// Those that may stand in the log or not, as they came.
    pub unknown: Vec<u8>,
}

impl Texts {
    /// Nothing is to be written. With `places` it is wanted where lines stand that were delivered.
    pub fn new(alloc: Global, places: bool) -> Texts
        ensures empty { IsEmpty result }
        ensures places { result.places ≡ places }
    {
        Texts {
            places,
            offsets: Vec::new(alloc),
            said: Vec::new(alloc),
            undelivered: Vec::new(alloc),
            unknown: Vec::new(alloc),
        }
    }

    /// Nothing is to be written any more. What memory there is stays.
    pub fn clear(&mut self)
        ensures empty { IsEmpty self.new }
        ensures places { self.new.places ≡ self.old.places }
    {
        self.offsets.clear();
        self.said.clear();
        self.undelivered.clear();
        self.unknown.clear();
    }

    /// A line was told of, which this delimiter ended. Where it fails a beginning of its text may stand there.
    pub(crate) fn tell(
        &mut self,
        tellings: &mut Tellings,
        told: &Told,
        delimiter: u8,
    ) -> Result<(), AllocError>
        ensures writes { OnOk result (Writes delimiter tellings.old (told.now ∷ []) self.old self.new) }
        ensures counted { OnOk result (tellings.new ≡ counted tellings.old told.now.fate) }
    {
        match keep_of(told.fate) {
            None => {}
            Some(Keep::Undelivered) => put_line(&mut self.undelivered, &told.bytes, delimiter)?,
            Some(Keep::Unknown) => put_line(&mut self.unknown, &told.bytes, delimiter)?,
        }
        put_offset(self.places, told, &mut self.offsets)?;
        tellings.note(told, &mut self.said)
    }
}

/// Puts a line behind the others, where its bytes were kept.
fn put_line(out: &mut Vec<u8>, bytes: &Option<Blob>, delimiter: u8) -> Result<(), AllocError>
    ensures { OnOk result (out.new.items ≡ out.old.items ++ line_text delimiter bytes.now) }
{
    let Some(bytes) = bytes else {
        return Ok(());
    };
    out.extend_from_slice(bytes.as_slice())?;
    Ok(out.push(delimiter)?)
}

/// Puts where a line stands behind the others, where that is wanted and it was delivered.
fn put_offset(places: bool, told: &Told, out: &mut Vec<u8>) -> Result<(), AllocError>
    ensures { OnOk result (out.new.items ≡ out.old.items ++ offset_text places told.now) }
{
    if places { put_place(told, out) } else { Ok(()) }
}
