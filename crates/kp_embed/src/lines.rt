//! What the connections to nodes carry, node by node.

ghost use Rattle.std.specs.Prelude.{◌≡◌, ◌≤◌, ◌<◌, [], count_by, is_some, length, Some, None, OnOk, OnErr};
ghost use Rattle.kp_embed.specs.Lines.{AtNode, NODE_LIMIT, SameLines, line_at};

use crate::line::Line;
use std::alloc::{AllocError, Global};
use std::marker::Model;

/// What the connections to nodes carry, by node.
#[derive(Debug, Drop)]
pub(crate) struct Lines {
    lines: Vec<Option<Line>>,
}

impl Model for Lines {
    ghost use Rattle.std.specs.Prelude.{List, Option};
    ghost use Rattle.kp_embed.specs.declared.line.Line as line;

    ghost Value = { List (Option line.Line) };

    ghost use Rattle.std.specs.Prelude.{◌≤◌, length};
    ghost use Rattle.kp_embed.specs.Lines.{NODE_LIMIT};

    ghost view = { λ l. l.lines.items };

    ghost invariant = { λ l. length l.lines.items ≤ NODE_LIMIT };
}

impl Lines {
    pub(crate) fn new(alloc: Global) -> Lines
        ensures { result ≡ [] }
    {
        Lines {
            lines: Vec::new(alloc),
        }
    }

    /// How many nodes have a place.
    pub(crate) fn len(&self) -> usize
        ensures count { result ≡ length self.now }
        ensures limit { result ≤ NODE_LIMIT }
    {
        self.lines.len()
    }

    /// How many nodes have a connection.
    pub(crate) fn open(&self) -> usize
        ensures { result ≡ count_by is_some self.now }
    {
        self.lines.iter().filter(|line| line.is_some()).count()
    }

    /// There is a place for each of so many nodes.
    pub(crate) fn grow(&mut self, count: usize) -> Result<(), AllocError>
        requires { count ≤ NODE_LIMIT }
        ensures same { SameLines self.old self.new }
        ensures ok { OnOk result (count ≤ length self.new) }
    {
        for _ in self.lines.len()..count {
            self.lines.push(None)?;
        }
        Ok(())
    }

    /// The node's line, which is not there any more.
    pub(crate) fn take(&mut self, node: u32) -> Option<Line>
        ensures taken { result ≡ line_at node self.old }
        ensures left { AtNode node None self.old self.new }
        ensures count { length self.new ≡ length self.old }
    {
        let place = node as usize;
        if place >= self.lines.len() {
            return None;
        }
        self.lines[place].take()
    }

    /// This is the node's line from now on.
    pub(crate) fn put(&mut self, node: u32, line: Line)
        requires { node < length self.old }
        ensures put { AtNode node (Some line) self.old self.new }
        ensures count { length self.new ≡ length self.old }
    {
        self.lines[node as usize] = Some(line);
    }
}
