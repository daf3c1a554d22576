ghost use Rattle.std.specs.Prelude.{◌≡◌, ◌≤◌, ◌<◌, ◌+◌, ◌↔◌, ℕ, Some, None, OnOk, OnErr, IsTrue};
ghost use Rattle.vtr_base.specs.Outside.{Files, Rose, WhereKnown, IsOnShelf, AppendsPart, WrittenPart, appended, written};
ghost use Rattle.shelf_kit.specs.OneFile.{bytes_at, beside_of};

use vtr_base::{Shelf, ShelfError, Sink, SinkFailed};

/// A sink that writes into one begun file of a shelf, an append for each put.
#[derive(Drop)]
pub struct ShelfSink<'s, S: Shelf> {
    shelf: &'s mut S,
    name: &'s str,
    short_puts: u64,
    ghost files_of: { (m : Files) → S.files shelf.now ≡ Some m → IsOnShelf m name.now },
}

impl<'s, S: Shelf> ShelfSink<'s, S> {
    /// A sink over the file of that name, which is files_of.
    pub fn on(shelf: &'s mut S, name: &'s str) -> ShelfSink<'s, S>
        requires { WhereKnown (S.files shelf.old) (λ m. IsOnShelf m name.now) }
        ensures same_reference { result.shelf.ghost_name ≡ shelf.entry.ghost_name }
        ensures shelf { result.shelf.now ≡ shelf.old }
        ensures name { result.name.now ≡ name.now }
        ensures fresh { result.short_puts ≡ 0 }
    {
        ShelfSink {
            shelf,
            name,
            short_puts: 0,
        }
    }

    /// Whether a put failed for want of memory.
    pub fn short_of_memory(&self) -> bool
        ensures { IsTrue result ↔ (0 < self.now.short_puts) }
    {
        self.short_puts > 0
    }
}

impl<'s, S: Shelf> Sink for ShelfSink<'s, S> {
    ghost bytes = { λ s. bytes_at s.name.now (S.files s.shelf.now) };

    ghost beside = { λ s. beside_of s.name.now (S.files s.shelf.now) s.shelf.ghost_name };

    ghost faults = { λ s. S.faults s.shelf.now + s.short_puts };

    fn put(&mut self, piece: &[u8]) -> Result<(), SinkFailed>
        // What the shelf holds: its put is one append.
        ensures same_reference { self.new.shelf.ghost_name ≡ self.old.shelf.ghost_name }
        ensures name { self.new.name ≡ self.old.name }
        ensures appended { OnOk result (S.files self.new.shelf.now ≡ appended self.old.name.now
            piece.now (S.files self.old.shelf.now)) }
        ensures appended_part { OnErr result (AppendsPart self.old.name.now piece.now
            (S.files self.old.shelf.now) (S.files self.new.shelf.now)) }

        // What the sink tells.
        ensures beside { beside_of self.new.name.now (S.files self.new.shelf.now)
            self.new.shelf.ghost_name ≡ beside_of self.old.name.now (S.files self.old.shelf.now)
            self.old.shelf.ghost_name }
        ensures ok { OnOk result (bytes_at self.new.name.now (S.files self.new.shelf.now) ≡ written
            piece.now (bytes_at self.old.name.now (S.files self.old.shelf.now))) }
        ensures part { OnErr result (WrittenPart piece.now
            (bytes_at self.old.name.now (S.files self.old.shelf.now))
            (bytes_at self.new.name.now (S.files self.new.shelf.now))) }

        // Whose fault a failure is.
        ensures count { S.faults self.old.shelf.now + self.old.short_puts ≤ S.faults
            self.new.shelf.now + self.new.short_puts }
        ensures shelf_count { S.faults self.old.shelf.now ≤ S.faults self.new.shelf.now }
        ensures short { self.old.short_puts ≤ self.new.short_puts }
        ensures failed { OnErr result (Rose (S.faults self.old.shelf.now + self.old.short_puts)
            (S.faults self.new.shelf.now + self.new.short_puts)) }
        ensures outside { OnErr result (self.new.short_puts ≡ 0 → Rose (S.faults self.old.shelf.now)
            (S.faults self.new.shelf.now)) }
        ensures calm { OnOk result (self.new.short_puts ≡ self.old.short_puts) }
    {
        match self.shelf.append(self.name, piece) {
            Ok(()) => Ok(()),
            Err(error) => {
                if error == ShelfError::OutOfMemory {
                    self.short_puts = self.short_puts.saturating_add(1);
                }
                Err(SinkFailed)
            }
        }
    }
}
