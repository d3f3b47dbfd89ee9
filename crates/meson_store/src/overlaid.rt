//! A store whose files are given texts, and else those of another store.

ghost use Rattle.std.specs.Prelude.{◌≡◌, ◌≤◌, ◌<◌, ◌+◌, ◌^◌, ℕ, Err, IfErr, IfOk, IfSome, IsNone, IsSome, OnOk, Option, None, Some, option_map};
ghost use Rattle.std.specs.FinMap.{get};
ghost use Rattle.meson_splice.specs.Files.{bytes_at, position_of_file};
ghost use Rattle.meson_store.specs.Content.{Content, content_with, reported-set};
ghost use Rattle.meson_store.specs.StoreCalls.{FailureCounted, Leaves, one_more};
ghost use Rattle.meson_store.specs.Texts.{texts_over};

use crate::{Store, StoreError};
use meson_splice::FileSet;
use std::alloc::Global;
use std::marker::{Brand, PhantomData};

/// What is known of a store when texts are laid over it. The function that does so picks it, for `Brand`.
pub trait Below {
    ghost name: { ℕ };

    ghost content: { Option Content };

    ghost failures: { ℕ };

    ghost reads: { ℕ };

    ghost replaces: { ℕ };
}

impl Below for Brand {
    ghost name = { 0 };

    ghost content = { None };

    ghost failures = { 0 };

    ghost reads = { 0 };

    ghost replaces = { 0 };
}

/// A store in which each of these texts is the file of its name. Each other file is that of the store below, which is read only.
///
/// Its type says that the store below keeps what it holds, and that it is the one that was lent. So it can be handed to whatever takes a store.
#[derive(Drop)]
pub struct Overlaid<'a, S: Store, B: Below> {
    pub store: &'a mut S,
    pub texts: &'a FileSet,
    /// The failures of the store below, and the refused calls of `replace`.
    pub failures: u64,
    /// The number of calls of `read` of this store. The store below is read for names without a text alone.
    pub reads: u64,
    /// The number of calls of `replace`. Each is refused.
    pub refused: u64,
    pub below: PhantomData<B>,
    ghost same: { store.ghost_name ≡ B.name },
    ghost kept: { S.content store.now ≡ B.content } by { reported-set (S.content store.now) B.content },
    ghost no_replace: { S.replaces store.now ≡ B.replaces },
    ghost counts: { B.failures ≤ S.failures store.now },
    ghost fits: { failures < 2 ^ 64 },
    ghost failures_below: { S.failures store.now ≤ failures },
    ghost no_other_failures: { failures ≤ S.failures store.now + refused },
    ghost reads_below: { S.reads store.now ≤ B.reads + reads },
}

impl<'a, S: Store, B: Below> Store for Overlaid<'a, S, B> {
    ghost content = { λ o. texts_over o.texts.now (S.content o.store.now) };

    ghost failures = { λ o. o.failures };

    ghost reads = { λ o. o.reads };

    ghost replaces = { λ o. o.refused };

    /// The text of that name, without a look at the store below; else what that store has.
    fn read(&mut self, alloc: Global, name: &str) -> Result<Option<Vec<u8>>, StoreError>
        ensures value { IfOk result (λ read. IfSome (texts_over self.old.texts.now (S.content self.old.store.now))
            (λ files. option_map (λ bytes. bytes.items) read ≡ get files name.now)) }
        ensures given { IfOk result (λ read. (i : ℕ) → position_of_file name.now self.old.texts.now ≡ Some i
            → option_map (λ bytes. bytes.items) read ≡ Some (bytes_at i self.old.texts.now)) }
        ensures untouched { IsSome (position_of_file name.now self.old.texts.now) → self.new.store.now ≡ self.old.store.now }
        ensures below { IsNone (position_of_file name.now self.old.texts.now) → S.reads self.new.store.now ≡ one_more (S.reads self.old.store.now) }
        ensures kept { texts_over self.new.texts.now (S.content self.new.store.now) ≡ texts_over self.old.texts.now (S.content self.old.store.now) }
        ensures counts { self.old.failures ≤ self.new.failures }
        ensures failed { IfErr result (λ why. FailureCounted why self.old.failures self.new.failures) }
        ensures counted { self.new.reads ≡ one_more self.old.reads }
        ensures no_replace { self.new.refused ≡ self.old.refused }
    {
        self.reads = self.reads.saturating_add(1);
        match self.texts.find(name) {
            Some(text) => Ok(Some(Vec::from_slice(alloc, self.texts.bytes(text))?)),
            None => {
                let read = self.store.read(alloc, name);
                self.failures = self.store.failures().saturating_add(self.refused);
                read
            }
        }
    }

    /// Refused, since the store below is read only.
    fn replace(&mut self, _name: &str, _bytes: &[u8]) -> Result<(), StoreError>
        ensures ok { OnOk result (texts_over self.new.texts.now (S.content self.new.store.now)
            ≡ content_with (texts_over self.old.texts.now (S.content self.old.store.now)) _name.now _bytes.now) }
        ensures err { IfErr result (λ why. Leaves why _name.now _bytes.now (texts_over self.old.texts.now (S.content self.old.store.now))
            (texts_over self.new.texts.now (S.content self.new.store.now))) }
        ensures refused { result ≡ Err StoreError.Unchanged }
        ensures untouched { self.new.store.now ≡ self.old.store.now }
        ensures counts { self.old.failures ≤ self.new.failures }
        ensures failed { IfErr result (λ why. FailureCounted why self.old.failures self.new.failures) }
        ensures counted { self.new.refused ≡ one_more self.old.refused }
        ensures no_read { self.new.reads ≡ self.old.reads }
    {
        self.refused = self.refused.saturating_add(1);
        self.failures = self.failures.saturating_add(1);
        Err(StoreError::Unchanged)
    }

    fn failures(&self) -> u64 {
        self.failures
    }

    fn reads(&self) -> u64 {
        self.reads
    }

    fn replaces(&self) -> u64 {
        self.refused
    }
}
