//! What a file of cases says.

use crate::fault::StepFault;
use std::alloc::{AllocError, Global};

/// A line of a file.
#[derive(Clone, Copy)]
pub(crate) struct Line<'a> {
    /// From 1.
    pub(crate) number: usize,
    pub(crate) text: &'a str,
}

/// A block of a file: its name and the steps behind it.
#[derive(Drop)]
pub(crate) struct Block<'a> {
    pub(crate) name: &'a str,
    pub(crate) steps: Vec<Line<'a>>,
}

/// The blocks of a file, and the texts that it names.
#[derive(Drop)]
pub(crate) struct Script<'a> {
    alloc: Global,
    pub(crate) blocks: Vec<Block<'a>>,
    named: Vec<(&'a str, &'a str)>,
}

impl<'a> Script<'a> {
    pub(crate) fn read(alloc: Global, file: &'a str) -> Result<Script<'a>, AllocError> {
        let mut script = Script {
            alloc,
            blocks: Vec::new(alloc),
            named: Vec::new(alloc),
        };
        let mut is_open = false;
        for (k, line) in file.lines().enumerate() {
            let text = line.trim();
            if text.starts_with('#') {
                continue;
            }
            if let Some(naming) = text.strip_prefix("let ") {
                script.name(naming)?;
                continue;
            }
            if !text.is_empty() {
                let number = k.saturating_add(1);
                script.put(Line { number, text }, is_open)?;
            }
            is_open = !text.is_empty();
        }
        Ok(script)
    }

    fn name(&mut self, naming: &'a str) -> Result<(), AllocError> {
        self.named
            .push(naming.split_once(' ').unwrap_or((naming, "")))?;
        Ok(())
    }

    /// Adds a line: a step of the last block where that is open, and else the name of the next.
    fn put(&mut self, line: Line<'a>, is_open: bool) -> Result<(), AllocError> {
        match self.blocks.last_mut() {
            Some(block) if is_open => block.steps.push(line)?,
            _ => self.blocks.push(Block {
                name: line.text,
                steps: Vec::new(self.alloc),
            })?,
        }
        Ok(())
    }

    /// The steps that have this name.
    pub(crate) fn steps(&self, name: &str) -> Result<&[Line<'a>], StepFault> {
        for block in &self.blocks {
            if block.name.strip_prefix("steps ") == Some(name) {
                return Ok(block.steps.as_slice());
            }
        }
        Err(StepFault::NotUnderstood)
    }

    /// The text that has this name.
    fn text(&self, name: &str) -> Result<&'a str, StepFault> {
        for (named, text) in &self.named {
            if *named == name {
                return Ok(*text);
            }
        }
        Err(StepFault::NotUnderstood)
    }

    /// The line with each named text in the place of its name.
    pub(crate) fn spelled(&self, line: &str) -> Result<String, StepFault> {
        let mut spelled = String::new(self.alloc);
        let (before, named) = line.split_once("${").unwrap_or((line, ""));
        spelled.push_str(before)?;
        if before.len() == line.len() {
            return Ok(spelled);
        }
        for piece in named.split("${") {
            let (name, behind) = piece.split_once('}').ok_or(StepFault::NotUnderstood)?;
            spelled.push_str(self.text(name)?)?;
            spelled.push_str(behind)?;
        }
        Ok(spelled)
    }
}
