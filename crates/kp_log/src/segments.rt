//! The records of a log, in segments: an append moves none of them but those of the segment that it goes into.

ghost use Rattle.std.specs.Prelude.{◌≡◌, ◌+◌, ◌<◌, ◌≤◌, ◌++◌, ◌^◌, [], ◌∷◌, length, slice_get, vec_len, IfOk, OnOk};
ghost use Rattle.std.specs.Option.{option_copied};
ghost use Rattle.std.specs.Vec.{vec_capacity};
ghost use Rattle.kp_log.specs.Log.{stored_as};
ghost use Rattle.kp_log.specs.History.{is_under, own_offsets};
ghost use Rattle.kp_log.specs.Segments.{segments_with, records_of, own_from, AreFullFrom, AreBegunBy};

use crate::stored::Stored;
use kp_batch::Record;
use std::alloc::{AllocError, Global};
use std::marker::Model;
use std::mem;

/// A segment with so many records takes no more.
const FULL: usize = 256;

/// A segment that takes no more.
#[derive(Debug, Drop)]
struct Segment {
    /// The offset of its first record.
    first: u64,
    records: Vec<Stored>,
}

/// Records by offset: full segments, the oldest first, and behind them the one that takes what is appended.
#[derive(Debug, Drop)]
pub(crate) struct Segments {
    alloc: Global,
    full: Vec<Segment>,
    /// The offset of the last segment's first record.
    first: u64,
    /// The last segment; empty where it has not begun.
    last: Vec<Stored>,
}

impl Model for Segments {
    ghost use Rattle.kp_log.specs.Segments.{Held, held, room_of, AreInPlace};

    ghost Value = { Held };

    ghost view = { λ s. held s.full.items s.last.items (room_of s.full s.last) };

    ghost invariant = { λ s. AreInPlace s.full.items s.first s.last.items };
}

impl Segments {
    /// No record and no segment. It takes no memory.
    pub fn new(alloc: Global) -> Segments
        ensures records { result.records ≡ [] }
        ensures segments { result.segments ≡ [] }
    {
        Segments {
            alloc,
            full: Vec::new(alloc),
            first: 0,
            last: Vec::new(alloc),
        }
    }

    /// How many records there are: the offset of the next.
    pub fn len(&self) -> u64
        ensures { result ≡ length self.now.records }
    {
        self.first + self.last.len() as u64
    }

    /// How many segments there are.
    pub fn count(&self) -> usize
        ensures { result ≡ length self.now.segments }
    {
        self.full.len() + usize::from(!self.last.is_empty())
    }

    /// The record at this offset, if there is one.
    pub fn get(&self, offset: u64) -> Option<&Stored>
        ensures { option_copied result ≡ slice_get self.now.records offset }
    {
        if offset < self.first {
            find(&self.full, offset)
        } else {
            self.last.get((offset - self.first) as usize)
        }
    }

    /// The offsets, upwards, of the records under these producer ids.
    pub fn offsets_of(&self, ids: &[i64]) -> Result<Vec<u64>, AllocError>
        ensures { IfOk result (λ v. v.items ≡ own_offsets ids.now self.now.records) }
    {
        let mut offsets = Vec::new(self.alloc);
        for segment in &self.full {
            push_own(&mut offsets, ids, segment.first, &segment.records)?;
        }
        push_own(&mut offsets, ids, self.first, &self.last)?;
        Ok(offsets)
    }

    /// Makes room for an append of so many records.
    pub fn reserve(&mut self, added: usize) -> Result<(), AllocError>
        ensures records { self.new.records ≡ self.old.records }
        ensures segments { self.new.segments ≡ self.old.segments }
        ensures room { OnOk result (added ≤ self.new.room) }
    {
        self.full.reserve(1)?;
        make_room(&mut self.last, added)
    }

    /// Appends these records, under this producer id, where there is room for them.
    pub fn append_reserved(&mut self, producer_id: i64, bodies: Vec<Record>)
        requires room { length bodies.items ≤ self.old.room }
        requires in_length { length self.old.records + length bodies.items < 2 ^ 64 }
        ensures records { self.new.records ≡ self.old.records ++ stored_as producer_id bodies.items }
        ensures segments { self.new.segments ≡ segments_with (length bodies.items) self.old.segments }
    {
        push_all(&mut self.last, producer_id, bodies);
        if self.last.len() >= FULL {
            let records = mem::replace(&mut self.last, Vec::new(self.alloc));
            let first = self.first;
            self.first += records.len() as u64;
            push_full(&mut self.full, Segment { first, records });
        }
    }
}

/// How many of these segments begin at this offset or before it.
fn begun_by(full: &[Segment], offset: u64) -> usize
    requires { AreFullFrom 0 full.now }
    ensures bound { result ≤ length full.now }
    ensures begun { AreBegunBy full.now offset result }
{
    full.partition_point(|segment| segment.first <= offset)
}

/// The record of these segments at this offset, if there is one.
fn find(full: &[Segment], offset: u64) -> Option<&Stored>
    requires { AreFullFrom 0 full.now }
    ensures { option_copied result ≡ slice_get (records_of full.now) offset }
{
    let segment = full[..begun_by(full, offset)].last()?;
    segment.records.get((offset - segment.first) as usize)
}

/// Makes room in a segment that takes more: at least for twice its records, or for a full segment's, so that
/// they are seldom moved and none is left over.
fn make_room(records: &mut Vec<Stored>, added: usize) -> Result<(), AllocError>
    ensures items { records.new.items ≡ records.old.items }
    ensures room { OnOk result (vec_len records.new + added ≤ vec_capacity records.new) }
{
    let len = records.len();
    if added <= records.capacity() - len {
        return Ok(());
    }
    records.reserve_exact(added.max(len.min(FULL.saturating_sub(len))))
}

/// Puts records behind those of a segment that has room for them.
fn push_all(records: &mut Vec<Stored>, producer_id: i64, bodies: Vec<Record>)
    requires { vec_len records.old + vec_len bodies ≤ vec_capacity records.old }
    ensures { records.new.items ≡ records.old.items ++ stored_as producer_id bodies.items }
{
    for body in bodies {
        if records.push(Stored { producer_id, body }).is_err() {
            unreachable!()
        }
    }
}

/// Puts a segment behind the full ones, where there is place for it.
fn push_full(full: &mut Vec<Segment>, segment: Segment)
    requires { vec_len full.old < vec_capacity full.old }
    ensures { full.new.items ≡ full.old.items ++ segment ∷ [] }
{
    if full.push(segment).is_err() {
        unreachable!()
    }
}

/// Whether the record is under one of the ids.
fn is_under(ids: &[i64], stored: &Stored) -> bool
    ensures { result ≡ is_under ids.now stored.now }
{
    ids.iter().any(|id| stored.producer_id == *id)
}

/// Adds the offsets of those of these records that are under one of the ids.
fn push_own(
    offsets: &mut Vec<u64>,
    ids: &[i64],
    first: u64,
    records: &[Stored],
) -> Result<(), AllocError>
    requires { first + length records.now < 2 ^ 64 }
    ensures { OnOk result (offsets.new.items ≡ offsets.old.items ++ own_from first ids.now records.now) }
{
    for (i, stored) in records.iter().enumerate() {
        if is_under(ids, stored) {
            offsets.push(first + i as u64)?;
        }
    }
    Ok(())
}
