//! What is noted of the calls of a turn.

ghost use Rattle.std.specs.Prelude.{◌≡◌, [], ◌∷◌, Option, None, Some, Ok, OnOk, IfOk, option_map, if◌then◌else◌};
ghost use Rattle.std.specs.Option.{option_copied};
ghost use Rattle.kp_accum.specs.declared.item.Item.{Item};
ghost use Rattle.kp_rules.specs.Calls.{Append, Request};
ghost use Rattle.kp_engine.specs.Turned.{append_answer, call_of, noted, notes_of, HasPlace};

use crate::moves::Moves;
use crate::strays::strays_behind;
use crate::turned::Turned;
use kp_accum::{AppendFault, Item};
use kp_rules::Outgoing;
use std::alloc::{AllocError, Global};

/// The calls of a turn, where they are kept for a caller, and what it has moved.
#[derive(Drop)]
pub(crate) struct Notes {
    alloc: Global,
    pub(crate) turn: Option<Vec<Turned>>,
    /// What the turn has moved, whether or not its calls are kept.
    pub(crate) moves: Moves,
    /// How many replies in a row, the last ones, named no request in flight.
    pub(crate) strays: u32,
}

impl Notes {
    /// Notes of no call. They are kept where that is asked for.
    pub(crate) fn new(alloc: Global, keeps: bool) -> Notes
        ensures notes { notes_of result ≡ record { strays = 0; calls = if keeps then Some [] else None } }
        ensures entries { option_map (λ v. v.items) result.turn ≡ (if keeps then Some [] else None) }
    {
        let turn = if keeps { Some(Vec::new(alloc)) } else { None };
        Notes {
            alloc,
            turn,
            moves: Moves::none(),
            strays: 0,
        }
    }

    /// Forgets the calls of an earlier turn.
    pub(crate) fn clear(&mut self)
        ensures { notes_of self.new ≡ record (notes_of self.old) { calls = option_map (λ _. []) (notes_of self.old).calls } }
    {
        self.moves = Moves::none();
        if let Some(entries) = &mut self.turn {
            entries.clear();
        }
    }

    /// Makes room for one entry.
    pub(crate) fn reserve(&mut self) -> Result<(), AllocError>
        ensures same { notes_of self.new ≡ notes_of self.old }
        ensures ok { OnOk result (HasPlace self.new.turn) }
    {
        if let Some(entries) = &mut self.turn {
            entries.reserve(1)?;
        }
        Ok(())
    }

    /// Makes room for the entry of the item's append, and a copy of the item for it, where calls are kept.
    pub(crate) fn reserve_append(&mut self, item: &Item) -> Result<Option<Item>, AllocError>
        ensures same { notes_of self.new ≡ notes_of self.old }
        ensures place { IfOk result (λ _. HasPlace self.new.turn) }
        ensures copy { IfOk result (λ copy. copy ≡ option_map (λ _. item.now) (notes_of self.old).calls) }
    {
        match &mut self.turn {
            None => Ok(None),
            Some(entries) => {
                entries.reserve(1)?;
                Ok(Some(item.copy(self.alloc)?))
            }
        }
    }

    /// Notes a call.
    pub(crate) fn add(&mut self, entry: Turned)
        requires { HasPlace self.old.turn }
        ensures { notes_of self.new ≡ noted (call_of entry ∷ []) (notes_of self.old) }
    {
        self.moves.note(&entry);
        self.strays = strays_behind(&entry, self.strays);
        if let Some(entries) = &mut self.turn {
            entries.push_reserved(entry);
        }
    }

    /// Notes that the request goes out: its frame. Where calls are kept, the frame is copied.
    pub(crate) fn add_request(
        &mut self,
        node: u32,
        now: u64,
        request: Outgoing,
    ) -> Result<Vec<u8>, AllocError>
        requires { HasPlace self.old.turn }
        ensures noted { notes_of self.new ≡ noted (Request node now (Ok (Some request)) ∷ []) (notes_of self.old) }
        ensures frame { IfOk result (λ frame. frame.items ≡ request.bytes) }
    {
        self.moves.note_request(request.bytes.len());
        if self.turn.is_none() {
            return Ok(request.bytes.into_vec());
        }
        let copy = Vec::from_slice(self.alloc, request.bytes.as_slice());
        self.add(Turned::Request(node, now, Ok(Some(request))));
        copy
    }

    /// Notes that the item was appended of which this is the copy.
    pub(crate) fn add_append(&mut self, copy: Option<Item>, fault: Option<AppendFault>)
        requires { HasPlace self.old.turn }
        ensures { (item : Item) → copy ≡ option_map (λ _. item) (notes_of self.old).calls
            → notes_of self.new ≡ noted (Append item (append_answer fault) ∷ []) (notes_of self.old) }
    {
        if fault.is_none() {
            self.moves.note_move();
        }
        if let Some(item) = copy {
            self.add(Turned::Append(item, fault));
        }
    }
}
