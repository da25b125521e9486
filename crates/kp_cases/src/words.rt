//! The words of a step.

use crate::fault::StepFault;
use std::alloc::Global;
use std::str::FromStr;

/// The words of a step that were not taken yet.
#[derive(Drop)]
pub struct Words<'a> {
    alloc: Global,
    rest: &'a str,
}

impl<'a> Words<'a> {
    pub(crate) fn of(alloc: Global, text: &'a str) -> Words<'a> {
        Words {
            alloc,
            rest: text.trim(),
        }
    }

    /// Whether all were taken.
    pub fn is_empty(&self) -> bool {
        self.rest.is_empty()
    }

    /// The next word.
    pub fn word(&mut self) -> Result<&'a str, StepFault> {
        if self.rest.is_empty() {
            return Err(StepFault::NotUnderstood);
        }
        let (word, rest) = self.rest.split_once(' ').unwrap_or((self.rest, ""));
        self.rest = rest.trim_start();
        Ok(word)
    }

    /// The next word, which is a number in decimal.
    pub fn number<T: FromStr>(&mut self) -> Result<T, StepFault>
    where
        T::Err: Drop,
    {
        self.word()?.parse().map_err(|_| StepFault::NotUnderstood)
    }

    /// The next word, which is bytes in hexadecimal; `-` is none at all.
    pub fn bytes(&mut self) -> Result<Vec<u8>, StepFault> {
        bytes_of(self.alloc, self.word()?)
    }

    /// All words that are left, with the blanks between them.
    pub fn rest(&mut self) -> &'a str {
        let rest = self.rest;
        self.rest = "";
        rest
    }

    /// All words that are left, which are bytes in hexadecimal.
    pub fn rest_bytes(&mut self) -> Result<Vec<u8>, StepFault> {
        let mut bytes = Vec::new(self.alloc);
        for word in self.rest().split_whitespace() {
            bytes.extend_from_slice(&bytes_of(self.alloc, word)?)?;
        }
        Ok(bytes)
    }

    /// NotUnderstood where one was not taken.
    pub(crate) fn end(&self) -> Result<(), StepFault> {
        if self.rest.is_empty() {
            Ok(())
        } else {
            Err(StepFault::NotUnderstood)
        }
    }
}

fn bytes_of(alloc: Global, word: &str) -> Result<Vec<u8>, StepFault> {
    Ok(hex::decode(alloc, if word == "-" { "" } else { word })?)
}
