//! A store in memory, for tests.

ghost use Rattle.std.specs.Prelude.{◌≡◌, ◌≤◌, ◌↔◌, IfOk, IfErr, OnOk, OnErr, Some, true, false, option_map};
ghost use Rattle.std.specs.FinMap.{get, insert, empty};
ghost use Rattle.meson_store.specs.StoreCalls.{FailureCounted, one_more};
ghost use Rattle.meson_store.specs.MemoryStore.{MayAnswer, with_failures, is_planned, is_due, no_files, after_read, replaced_so, with_file};

use crate::{Store, StoreError};
use std::alloc::{AllocError, Global};
use std::collections::VecDeque;
use std::marker::Model;

/// The bytes that a file got.
#[derive(Drop)]
struct Written {
    name: String,
    bytes: Vec<u8>,
}

/// The calls of one kind: how many were made, and which are to fail.
#[derive(Clone, Copy)]
struct PlannedFailures {
    made: u64,
    first: u64,
    count: u64,
}

impl PlannedFailures {
    /// No call was made, and none fails.
    const NO_FAILURE: PlannedFailures = PlannedFailures {
        made: 0,
        first: 1,
        count: 0,
    };

    /// Counts a call, and says whether it fails.
    fn next_fails(&mut self) -> bool
        ensures made { self.new ≡ record self.old { made = one_more self.old.made } }
        ensures due { result ≡ is_planned self.old.first self.old.count (one_more self.old.made) }
    {
        self.made = self.made.saturating_add(1);
        self.first <= self.made && self.made - self.first < self.count
    }
}

/// Files in memory, for tests. Calls of `read` and `replace` can be made to fail.
#[derive(Drop)]
pub struct Memory {
    alloc: Global,
    /// What was written, the newest first.
    log: VecDeque<Written>,
    failures: u64,
    reads: PlannedFailures,
    replaces: PlannedFailures,
    leaves_new: bool,
    /// A `replace` that is to fail knows that its file is as it was.
    is_sure: bool,
}

impl Model for Memory {
    ghost use Rattle.meson_store.specs.MemoryStore.{HeldFiles, held_code};
    ghost use Rattle.std.specs.FinMap.{from_entries};
    ghost use Rattle.std.specs.Prelude.{map, string_bytes};

    ghost Value = { HeldFiles };

    ghost coded = { held_code };

    ghost view = { λ m. record {
      files = from_entries (map (λ w. (string_bytes w.name, w.bytes.items)) m.log.items);
      failures = m.failures;
      reads = record { made = m.reads.made; first = m.reads.first; count = m.reads.count };
      replaces = record { made = m.replaces.made; first = m.replaces.first; count = m.replaces.count };
      leaves_new = m.leaves_new;
      is_sure = m.is_sure;
    } };
}

impl Memory {
    /// A store without files, of which no call fails.
    pub fn new(alloc: Global) -> Self
        ensures { result ≡ no_files }
    {
        Memory {
            alloc,
            log: VecDeque::new(alloc),
            failures: 0,
            reads: PlannedFailures::NO_FAILURE,
            replaces: PlannedFailures::NO_FAILURE,
            leaves_new: false,
            is_sure: false,
        }
    }

    /// Sets up a file.
    ///
    /// # Errors
    /// An allocation failed; the store is then as it was.
    pub fn put(&mut self, name: &str, bytes: &[u8]) -> Result<(), AllocError>
        ensures ok { OnOk result (self.new ≡ with_file self.old name.now bytes.now) }
        ensures err { OnErr result (self.new ≡ self.old) }
    {
        let name = String::from_str(self.alloc, name)?;
        let bytes = Vec::from_slice(self.alloc, bytes)?;
        self.log.push_front(Written { name, bytes })?;
        Ok(())
    }

    /// The bytes of a file, or none if there is no such file.
    pub fn get(&self, name: &str) -> Option<&[u8]>
        ensures { option_map (λ bytes. bytes.now) result ≡ get self.now.files name.now }
    {
        for written in &self.log {
            if name.cmp(written.name.as_str()).is_eq() {
                return Some(written.bytes.as_slice());
            }
        }
        None
    }

    /// Makes `count` calls of `read` fail, from call `first` on; the store's first call is 1.
    pub fn fail_read(&mut self, first: u64, count: u64)
        ensures { self.new ≡ record self.old { reads = with_failures self.old.reads first count } }
    {
        self.reads.first = first;
        self.reads.count = count;
    }

    /// Makes `count` calls of `replace` answer `Device`, from call `first` on; the store's first call is 1.
    ///
    /// With `leaves_new` the first one that fails leaves its new bytes. If there is no memory for them, it answers that.
    pub fn fail_replace(&mut self, first: u64, count: u64, leaves_new: bool)
        ensures { self.new ≡ record self.old { replaces = with_failures self.old.replaces first count; leaves_new = leaves_new; is_sure = false } }
    {
        self.replaces.first = first;
        self.replaces.count = count;
        self.leaves_new = leaves_new;
        self.is_sure = false;
    }

    /// Makes `count` calls of `replace` answer `Unchanged`, from call `first` on; the store's first call is 1.
    pub fn fail_unchanged(&mut self, first: u64, count: u64)
        ensures { self.new ≡ record self.old { replaces = with_failures self.old.replaces first count; leaves_new = false; is_sure = true } }
    {
        self.replaces.first = first;
        self.replaces.count = count;
        self.leaves_new = false;
        self.is_sure = true;
    }
}

impl Store for Memory {
    ghost content = { λ m. Some m.files };

    ghost failures = { λ m. m.failures };

    ghost reads = { λ m. m.reads.made };

    ghost replaces = { λ m. m.replaces.made };

    /// Fails only as planned, or when an allocation failed.
    fn read(&mut self, alloc: Global, name: &str) -> Result<Option<Vec<u8>>, StoreError>
        ensures value { IfOk result (λ read. option_map (λ bytes. bytes.items) read ≡ get self.old.files name.now) }
        ensures after { self.new ≡ after_read self.old }
        ensures due { (result ≡ Err StoreError.Device) ↔ (is_due self.old.reads ≡ true) }
        ensures counts { self.old.failures ≤ self.new.failures }
        ensures failed { IfErr result (λ why. FailureCounted why self.old.failures self.new.failures) }
    {
        if self.reads.next_fails() {
            self.failures = self.failures.saturating_add(1);
            return Err(StoreError::Device);
        }
        let Some(bytes) = self.get(name) else {
            return Ok(None);
        };
        Ok(Some(Vec::from_slice(alloc, bytes)?))
    }

    /// Fails only as planned, or when an allocation failed.
    fn replace(&mut self, name: &str, bytes: &[u8]) -> Result<(), StoreError>
        ensures after { self.new ≡ replaced_so self.old name.now bytes.now result }
        ensures answer { MayAnswer self.old result }
        ensures counts { self.old.failures ≤ self.new.failures }
        ensures failed { IfErr result (λ why. FailureCounted why self.old.failures self.new.failures) }
    {
        if !self.replaces.next_fails() {
            return Ok(self.put(name, bytes)?);
        }
        self.failures = self.failures.saturating_add(1);
        let leaves_new = self.leaves_new;
        self.leaves_new = false;
        if self.is_sure {
            return Err(StoreError::Unchanged);
        }
        if !leaves_new {
            return Err(StoreError::Device);
        }
        self.put(name, bytes)?;
        Err(StoreError::Device)
    }

    fn failures(&self) -> u64 {
        self.failures
    }

    fn reads(&self) -> u64 {
        self.reads.made
    }

    fn replaces(&self) -> u64 {
        self.replaces.made
    }
}
