//! What a writer offers.

ghost use Rattle.std.specs.Prelude.{◌≡◌, ◌∷◌, ◌++◌, [], IfSome, MatchResult, OnErr};
ghost use Rattle.std.specs.Io.KnownBytes.{Appends};
ghost use Rattle.meson_store.specs.Content.{Rose};
ghost use Rattle.meson_store.specs.Output.{Heard, Gets, Fails};

use std::alloc::{AllocError, Global};
use std::fmt::Display;
use std::io;
use std::io::Write;

/// A writer that counts its failures.
pub trait Output {
    ghost heard: { Self → Heard };

    /// Writes all the bytes, and flushes the writer. The clause does not say that it flushes.
    ///
    /// # Errors
    /// A write failed, and then it is counted. The writer may have some of the bytes.
    fn tell(&mut self, bytes: &[u8]) -> io::Result<()>
        ensures { MatchResult result (λ _. Gets (heard self.old) (heard self.new) bytes.now)
            (λ _. Fails (heard self.old) (heard self.new)) };

    /// Writes a text and a line end: by one write if there is memory to build the line, else part after part.
    ///
    /// # Errors
    /// The same as those of `tell`.
    fn tell_line<D: Display>(&mut self, alloc: Global, text: &D) -> io::Result<()>
        ensures { MatchResult result (λ _. IfSome (D.output text.now) (λ bytes. Gets (heard self.old) (heard self.new) (bytes ++ 10 ∷ [])))
            (λ _. Fails (heard self.old) (heard self.new)) };
}

/// A writer, and what is known of its failures.
pub trait Writer: Write {
    /// What a failure says about the writer before and after.
    ghost broke: { Self → Self → Type 0 };

    /// Writes all the bytes, and then flushes them.
    ///
    /// # Errors
    /// The writer failed. It may have some of the bytes.
    fn write_out(&mut self, bytes: &[u8]) -> io::Result<()>
        ensures { MatchResult result (λ _. Appends (Self.contents self.old) (Self.contents self.new) bytes.now) (λ _. broke self.old self.new) };

    /// Writes a text and a line end, part after part, and then flushes them.
    ///
    /// # Errors
    /// As those of `write_out`.
    fn write_line<D: Display>(&mut self, text: &D) -> io::Result<()>
        ensures { MatchResult result
            (λ _. IfSome (D.output text.now) (λ bytes. Appends (Self.contents self.old) (Self.contents self.new) (bytes ++ 10 ∷ [])))
            (λ _. broke self.old self.new) };
}

/// Every writer is one. Nothing is known of what makes it fail.
impl<W: Write> Writer for W {
    ghost broke = { λ _ _. Unit {0} };

    fn write_out(&mut self, bytes: &[u8]) -> io::Result<()> {
        self.write_all(bytes)?;
        self.flush()
    }

    fn write_line<D: Display>(&mut self, text: &D) -> io::Result<()> {
        self.writeln(text)?;
        self.flush()
    }
}

/// A writer, with the number of its writes that failed. The count stops at `u64::MAX`.
#[derive(Drop)]
pub struct Counted<W: Writer + Drop> {
    writer: W,
    failures: u64,
}

impl<W: Writer + Drop> Counted<W> {
    /// Counts from now on.
    pub fn new(writer: W) -> Self
        ensures { ⟦<Counted<W> as Output>⟧.heard result ≡ record { contents = W.contents writer; failures = 0 } }
    {
        Counted {
            writer,
            failures: 0,
        }
    }

    /// The number of writes that failed.
    pub fn failures(&self) -> u64
        ensures { result ≡ (⟦<Counted<W> as Output>⟧.heard self.now).failures }
    {
        self.failures
    }

    /// Counts the result of a write.
    fn counted(&mut self, told: io::Result<()>) -> io::Result<()>
        ensures told { result ≡ told }
        ensures writer { self.new.writer ≡ self.old.writer }
        ensures failures { MatchResult result (λ _. self.new.failures ≡ self.old.failures) (λ _. Rose self.old.failures self.new.failures) }
    {
        if told.is_err() {
            self.failures = self.failures.saturating_add(1);
        }
        told
    }

    /// The writer.
    pub fn take(self) -> W
        ensures { W.contents result ≡ (⟦<Counted<W> as Output>⟧.heard self).contents }
    {
        let Counted { writer, .. } = self;
        writer
    }
}

impl<W: Writer + Drop> Output for Counted<W> {
    ghost heard = { λ c. record { contents = W.contents c.writer; failures = c.failures } };

    fn tell(&mut self, bytes: &[u8]) -> io::Result<()>
        ensures told { let old = ⟦<Counted<W> as Output>⟧.heard self.old in let new = ⟦<Counted<W> as Output>⟧.heard self.new in
            MatchResult result (λ _. Gets old new bytes.now) (λ _. Fails old new) }
        // It fails only where its writer does.
        ensures broke { OnErr result (W.broke self.old.writer self.new.writer) }
    {
        let told = self.writer.write_out(bytes);
        self.counted(told)
    }

    fn tell_line<D: Display>(&mut self, alloc: Global, text: &D) -> io::Result<()>
        ensures told { let old = ⟦<Counted<W> as Output>⟧.heard self.old in let new = ⟦<Counted<W> as Output>⟧.heard self.new in
            MatchResult result (λ _. IfSome (D.output text.now) (λ bytes. Gets old new (bytes ++ 10 ∷ []))) (λ _. Fails old new) }
        ensures broke { OnErr result (W.broke self.old.writer self.new.writer) }
    {
        match format!(in alloc; "{text}\n") {
            Ok(line) => self.tell(line.as_bytes()),
            Err(AllocError) => {
                let told = self.writer.write_line(text);
                self.counted(told)
            }
        }
    }
}
