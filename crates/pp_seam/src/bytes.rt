//! A sink in memory.

ghost use Rattle.std.specs.Prelude.{◌≡◌, ◌≤◌, [], option_map, Some, IfOk, IsOk, OnOk, OnErr, is_ok, length};
ghost use Rattle.std.specs.Io.KnownBytes.{Appends};
ghost use Rattle.pp_seam.specs.Faults.{Rose};
ghost use Rattle.pp_seam.specs.Pieces.{AppendsFront};
ghost use Rattle.pp_seam.specs.Stored.{room_for, told_at, fits, after_piece, after_put, put_is_ok};

use crate::{NoMemory, PutFault, Sink};
use std::alloc::Global;
use std::marker::Model;

// A put that is to fail: its number, and how many bytes it takes.
#[derive(Clone, Copy)]
struct Told {
    call: u64,
    after: usize,
}

/// A sink in memory, with room for so many bytes. One of its puts may be told to fail.
#[derive(Drop)]
pub struct Bytes {
    held: Vec<u8>,
    room: usize,
    calls: u64,
    told: Option<Told>,
    faults: u64,
}

impl Model for Bytes {
    ghost use Rattle.std.specs.Prelude.{◌≤◌, option_map, vec_len, vec_capacity};
    ghost use Rattle.pp_seam.specs.Stored.{Stored};

    ghost Value = { Stored };

    ghost view = { λ b. record {
      taken = b.held.items;
      room = b.room;
      calls = b.calls;
      told =
          option_map (λ t. (t.call, t.after)) b.told;
      faults = b.faults;
    } };

    ghost invariant = { λ b. (b.room ≤ vec_capacity b.held) × (vec_len b.held ≤ b.room) };
}

impl Bytes {
    /// An empty sink with this room. It takes all its memory here.
    ///
    /// # Errors
    ///
    /// There was no memory.
    pub fn with_room(alloc: Global, room: usize) -> Result<Bytes, NoMemory>
        ensures { IfOk result (λ b. b ≡ room_for room) }
    {
        Ok(Bytes {
            held: Vec::with_capacity(alloc, room)?,
            room,
            calls: 0,
            told: None,
            faults: 0,
        })
    }

    /// The put with this number takes `after` bytes, at most what it could take, and fails. Puts of pieces that aren't
    /// empty are numbered from 1. Only the last number that was told counts. It takes no memory.
    pub fn fail_at(&mut self, call: u32, after: usize)
        ensures { self.new ≡ record self.old { told = Some (call, after) } }
    {
        self.told = Some(Told {
            call: u64::from(call),
            after,
        });
    }

    /// The bytes that it took.
    pub fn taken(&self) -> &[u8]
        ensures { result.now ≡ self.now.taken }
    {
        &self.held
    }

    // Puts a piece that isn't empty.
    fn put_piece(&mut self, bytes: &[u8]) -> Result<(), PutFault>
        ensures answer { is_ok result ≡ fits self.old (length bytes.now) }
        ensures after { self.new ≡ after_piece self.old bytes.now }
        ensures later { self.old.faults ≤ self.new.faults }
    {
        self.calls = self.calls.saturating_add(1);
        let free = self.room - self.held.len();
        let told = told_after(self.told, self.calls);
        let share = told.unwrap_or(bytes.len()).min(bytes.len().min(free));
        self.held.extend_from_slice(&bytes[..share]).unwrap();
        if told.is_none() && bytes.len() <= free {
            return Ok(());
        }
        self.faults = self.faults.saturating_add(1);
        Err(PutFault::Failed)
    }
}

// How much the put with this number takes at most, where it was told to fail.
fn told_after(told: Option<Told>, number: u64) -> Option<usize>
    ensures { result ≡ told_at (option_map (λ t. (t.call, t.after)) told) number }
{
    match told {
        Some(told) if told.call == number => Some(told.after),
        _ => None,
    }
}

impl Sink for Bytes {
    ghost taken = { λ b. Some b.taken };

    ghost faults = { λ b. b.faults };

    // What a put answers and leaves is told exactly, besides the clauses of the trait.
    fn put(&mut self, bytes: &[u8]) -> Result<(), PutFault>
        ensures answer { is_ok result ≡ put_is_ok self.old bytes.now }
        ensures after { self.new ≡ after_put self.old bytes.now }

        ensures whole { OnOk result (Appends (Some self.old.taken) (Some self.new.taken) bytes.now) }
        ensures front { OnErr result (AppendsFront (Some self.old.taken) (Some self.new.taken) bytes.now) }
        ensures cause { OnErr result (Rose self.old.faults self.new.faults) }
        ensures steady { OnOk result (self.new.faults ≡ self.old.faults) }
        ensures later { self.old.faults ≤ self.new.faults }
        ensures empty { bytes.now ≡ [] → IsOk result }
    {
        if bytes.is_empty() {
            return Ok(());
        }
        self.put_piece(bytes)
    }
}
