//! The text of what a log made of a batch.

ghost use Rattle.std.specs.Prelude.{◌≡◌, ◌++◌, IfOk, OnOk};
ghost use Rattle.kp_packing.specs.Report.{answered, report_text};

use crate::offering::Offered;
use kp_log::Answer;
use kp_text::{put_answer_line, put_batch_line, put_log};
use std::alloc::{AllocError, Global};

fn put_answer(out: &mut Vec<u8>, answer: Answer) -> Result<(), AllocError>
    ensures { OnOk result (out.new.items ≡ out.old.items ++ answered answer) }
{
    put_answer_line(out, answer.code(), answer.base_offset())
}

/// The text of a batch of this size and count, and of the log that it was offered to.
pub fn report(
    alloc: Global,
    size: u64,
    count: u64,
    offered: &Offered,
) -> Result<Vec<u8>, AllocError>
    ensures { IfOk result (λ text. text.items ≡ report_text size count offered.now) }
{
    let mut text = Vec::new(alloc);
    put_batch_line(&mut text, size, count)?;
    put_answer(&mut text, offered.first)?;
    put_answer(&mut text, offered.repeat)?;
    put_log(&mut text, 0, &offered.log)?;
    Ok(text)
}
