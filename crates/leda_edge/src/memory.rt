//! A source and a sink in memory, for tests: how they give, take and fail is laid down when they
//! are made.
ghost use Rattle.std.specs.Prelude.{◌≡◌, ◌⊎◌, ◌↔◌, ◌-◌, ◌<◌, min, [], ◌++◌, length, drop, Some, IsErr, IfOk, OnOk, OnErr, Contains};
ghost use Rattle.std.specs.Io.{ReadsAtMost, WritesAtMost};
ghost use Rattle.std.specs.Io.KnownBytes.{ReadConsumes, WriteAppends};
ghost use Rattle.leda_edge.specs.Causes.{HasCause};
ghost use Rattle.leda_edge.specs.Memory.{counted, counted_failed};
ghost use Rattle.leda_edge.specs.Parts.{StaysTold};

use crate::calls::CallPlan;
use crate::sink::Sink;
use crate::source::{Failed, Source};
use crate::sure::SureSource;
use leda_base::NoMemory;
use std::alloc::Global;
use std::marker::Model;

/// A source over bytes in memory, which it tells.
#[derive(Drop)]
pub struct MemSource {
    bytes: SureSource,
    piece: usize,
    calls: CallPlan,
}

impl Model for MemSource {
    ghost use Rattle.std.specs.Prelude.{◌<◌};
    ghost use Rattle.leda_edge.specs.Memory.{Reading};

    ghost Value = { Reading };

    ghost view = { λ source. record {
      left = source.bytes;
      piece = source.piece;
      calls = source.calls;
    } };

    ghost invariant = { λ source. 0 < source.piece };
}

impl MemSource {
    /// A source that gives `bytes`, at most `piece` of them per read; `piece` is at least 1. The
    /// reads whose numbers are in `fails` fail. The first read has the number 1, and numbers stop
    /// at `u64::MAX`.
    pub fn new(bytes: Vec<u8>, piece: usize, fails: Vec<u64>) -> MemSource
        requires { 0 < piece }
        ensures { result ≡ record {
          left = bytes.items;
          piece = piece;
          calls = record { fails = fails.items; made = 0; faults = 0 };
        } }
    {
        MemSource {
            bytes: SureSource::new(bytes),
            piece,
            calls: CallPlan::new(fails),
        }
    }
}

impl Source for MemSource {
    ghost left = { λ source. Some source.left };

    ghost faults = { λ source. source.calls.faults };

    fn read(&mut self, buf: &mut [u8]) -> Result<usize, Failed>
        requires { 0 < length buf.old }
        ensures bound { ReadsAtMost result buf.new }
        ensures bytes { ReadConsumes (Some self.old.left) (Some self.new.left) result buf.new }
        ensures told { StaysTold (Some self.old.left) (Some self.new.left) }
        ensures cause { HasCause self.old.calls.faults self.new.calls.faults result }

        // A read fails exactly where its number is listed, and else gives as much as it may.
        ensures listed { IsErr result ↔ Contains self.old.calls.fails self.new.calls.made }
        ensures count { IfOk result (λ count. count
            ≡ min (length self.old.left) (min (length buf.old) self.old.piece)) }
        ensures ok { IfOk result (λ count. self.new
            ≡ record self.old { left = drop count self.old.left; calls = counted self.old.calls }) }
        ensures err { OnErr result (self.new
            ≡ record self.old { calls = counted_failed self.old.calls }) }
    {
        if self.calls.begin() {
            return Err(self.calls.fail());
        }
        let most = buf.len().min(self.piece);
        self.bytes.read(&mut buf[..most])
    }
}

/// A sink that keeps bytes in memory, which it tells. It takes whole pieces.
#[derive(Drop)]
pub struct MemSink {
    bytes: Vec<u8>,
    room: usize,
    calls: CallPlan,
}

impl Model for MemSink {
    ghost use Rattle.std.specs.Prelude.{◌+◌, ◌≤◌, vec_len, vec_capacity};
    ghost use Rattle.leda_edge.specs.Memory.{Writing};

    ghost Value = { Writing };

    ghost view = { λ sink. record {
      bytes = sink.bytes.items;
      room = sink.room;
      calls = sink.calls;
    } };

    ghost invariant = { λ sink. vec_len sink.bytes + sink.room ≤ vec_capacity sink.bytes };
}

impl MemSink {
    /// A sink with room for `room` bytes, which it takes at once. The writes whose numbers are in
    /// `fails` fail, and so do those of a piece that is longer than the room left. The first write
    /// has the number 1, and numbers stop at `u64::MAX`.
    ///
    /// # Errors
    /// `NoMemory` where the room isn't given.
    pub fn new(alloc: Global, room: usize, fails: Vec<u64>) -> Result<MemSink, NoMemory>
        ensures { IfOk result (λ sink. sink ≡ record {
          bytes = [];
          room = room;
          calls = record { fails = fails.items; made = 0; faults = 0 };
        }) }
    {
        Ok(MemSink {
            bytes: Vec::with_capacity(alloc, room)?,
            room,
            calls: CallPlan::new(fails),
        })
    }

    /// What was written.
    pub fn bytes(&self) -> &[u8]
        ensures { result.now ≡ self.now.bytes }
    {
        self.bytes.as_slice()
    }
}

impl Sink for MemSink {
    ghost held = { λ sink. Some sink.bytes };

    ghost faults = { λ sink. sink.calls.faults };

    fn write(&mut self, piece: &[u8]) -> Result<usize, Failed>
        requires { 0 < length piece.now }
        ensures some { IfOk result (λ count. 0 < count) }
        ensures bound { WritesAtMost result piece.now }
        ensures bytes { WriteAppends (Some self.old.bytes) (Some self.new.bytes) result piece.now }
        ensures told { StaysTold (Some self.old.bytes) (Some self.new.bytes) }
        ensures cause { HasCause self.old.calls.faults self.new.calls.faults result }

        // A write fails exactly where its number is listed or the room is too small, and else takes
        // the whole piece.
        ensures refused { IsErr result ↔ (Contains self.old.calls.fails self.new.calls.made
            ⊎ self.old.room < length piece.now) }
        ensures count { IfOk result (λ count. count ≡ length piece.now) }
        ensures ok { OnOk result (self.new ≡ record {
          bytes = self.old.bytes ++ piece.now;
          room = self.old.room - length piece.now;
          calls = counted self.old.calls;
        }) }
        ensures err { OnErr result (self.new
            ≡ record self.old { calls = counted_failed self.old.calls }) }
    {
        if self.calls.begin() || self.room < piece.len() {
            return Err(self.calls.fail());
        }
        self.bytes.extend_from_slice(piece).unwrap();
        self.room -= piece.len();
        Ok(piece.len())
    }
}
