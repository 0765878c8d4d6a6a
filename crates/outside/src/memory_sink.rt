ghost use Rattle.std.specs.Prelude.{◌≡◌, ◌≤◌, ◌+◌, [], ◌++◌, ◌↔◌, Some, IsTrue, IfOk, IsErr, OnOk, OnErr, vec_capacity, vec_len};

use crate::listed::is_listed;
use crate::sink::{Failed, Sink};
use hy_terms::Memory;
use std::alloc::Global;

/// Bytes in memory, with a list of the numbers of the calls that are to fail.
#[derive(Drop)]
pub struct MemorySink {
    bytes: Vec<u8>,
    room: u64,
    /// The numbers of the calls of `write`, from 1, that are to fail.
    fails: Vec<u64>,
    calls: u64,
    faults: u64,
    ghost roomy: { room ≤ vec_capacity bytes },
    ghost filled: { vec_len bytes ≤ room },
}

impl MemorySink {
    ghost use Rattle.outside.specs.MemorySink.{bytes_of, count_of, room_of, fails_of, calls_of, FailsAt};

    /// Takes room for so many bytes. It fails at the listed calls and where a piece doesn't fit,
    /// and nowhere else.
    pub fn new(alloc: Global, room: u64, fails: Vec<u64>) -> Result<MemorySink, Memory>
        ensures empty { IfOk result (λ s. bytes_of s ≡ []) }
        ensures count { IfOk result (λ s. count_of s ≡ 0) }
        ensures room { IfOk result (λ s. room_of s ≡ room) }
        ensures fails { IfOk result (λ s. fails_of s ≡ fails.items) }
        ensures calls { IfOk result (λ s. calls_of s ≡ 0) }
    {
        let bytes = Vec::with_capacity(alloc, room as usize)?;
        Ok(MemorySink {
            bytes,
            room,
            fails,
            calls: 0,
            faults: 0,
        })
    }

    /// What was written.
    pub fn bytes(&self) -> &[u8]
        ensures { result.now ≡ bytes_of self.now }
    {
        self.bytes.as_slice()
    }

    fn fails_at(&self, piece: &[u8]) -> bool
        ensures { IsTrue result ↔ FailsAt self.now piece.now }
    {
        is_listed(self.fails.as_slice(), self.calls.saturating_add(1))
            || self.room - (self.bytes.len() as u64) < piece.len() as u64
    }
}

impl Sink for MemorySink {
    ghost use Rattle.outside.specs.Outside.{Appends, AppendsPrefix, next_call, Rises};
    ghost use Rattle.outside.specs.MemorySink.{bytes_of, count_of, room_of, fails_of, calls_of, FailsAt};

    ghost written = { λ s. Some (bytes_of s) };

    ghost faults = { count_of };

    fn write(&mut self, piece: &[u8]) -> Result<(), Failed>
        ensures ok { OnOk result (Appends (Some (bytes_of self.old))
            (Some (bytes_of self.new)) piece.now) }
        ensures prefix { OnErr result
            (AppendsPrefix (Some (bytes_of self.old)) (Some (bytes_of self.new)) piece.now) }
        ensures failed { OnErr result (Rises (count_of self.old) (count_of self.new)) }
        ensures counts { count_of self.old ≤ count_of self.new }

        // It fails just there, and then takes nothing of the piece.
        ensures fails { IsErr result ↔ FailsAt self.old piece.now }
        ensures nothing { OnErr result (bytes_of self.new ≡ bytes_of self.old) }

        ensures room { room_of self.new ≡ room_of self.old }
        ensures listed { fails_of self.new ≡ fails_of self.old }
        ensures calls { calls_of self.new ≡ next_call (calls_of self.old) }
    {
        let fails = self.fails_at(piece);
        self.calls = self.calls.saturating_add(1);
        if fails {
            self.faults = self.faults.saturating_add(1);
            return Err(Failed);
        }
        self.bytes.extend_from_slice(piece).unwrap();
        Ok(())
    }
}
