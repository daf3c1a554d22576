ghost use Rattle.std.specs.Prelude.{◌≡◌, ◌<◌, ◌⊎◌, ◌↔◌, ℕ, IsTrue, length, IfOk, IfErr, OnOk};
ghost use Rattle.vtr_base.specs.Lists.{Has};
ghost use Rattle.blif_elems.specs.Seen.{texts};
ghost use Rattle.blif_books.specs.Books.{Mentions, MentionsAll, Makes, CantMake, IsDriven, no_book};
ghost use Rattle.blif_errors.specs.declared.error.BlifError.TheVariants.{OutOfMemory};

use blif_errors::BlifError;
use blif_nets::{Driven, drive_all, number_all, number_one, take_words};
use indexmap::IndexSet;
use names::Names;
use std::alloc::{AllocError, Global};
use std::marker::Model;
use vtr_base::{Place, Text};

/// The names of nets by first mention, which nets are driven, and the names of atoms.
#[derive(Drop)]
pub struct Book {
    nets: Names,
    driven: Driven,
    names: Names,
}

impl Model for Book {
    ghost use Rattle.blif_books.specs.Books.{BookSaid};

    ghost Value = { BookSaid };

    ghost view = { λ b. record { nets = b.nets; driven = b.driven.keys; names = b.names } };
}

impl Book {
    /// Nothing is mentioned.
    pub fn new(alloc: Global) -> Book
        ensures { result ≡ no_book }
    {
        Book {
            nets: Names::new(alloc),
            driven: IndexSet::new(alloc),
            names: Names::new(alloc),
        }
    }

    /// The names of nets, by number.
    pub fn nets(&self) -> &Names
        ensures { result.now ≡ self.now.nets }
    {
        &self.nets
    }

    /// Whether the net of this name is driven.
    pub fn drives(&self, name: &str) -> bool
        ensures { IsTrue result ↔ IsDriven self.now name.now }
    {
        self.nets.law();
        let Some(net) = self.nets.find(name) else {
            return false;
        };
        has_key(&self.driven, net)
    }

    /// Whether an atom has this name.
    pub fn has_atom(&self, name: &str) -> bool
        ensures { IsTrue result ↔ Has self.now.names name.now }
    {
        self.names.find(name).is_some()
    }

    /// The number of the net of this name.
    pub fn mention(&mut self, word: &str) -> Result<u32, AllocError>
        ensures { IfOk result (λ n. Mentions self.old word.now self.new n) }
    {
        number_one(&mut self.nets, word)
    }

    /// The numbers of the nets of these names.
    pub fn mention_all(&mut self, alloc: Global, words: &[&str]) -> Result<Vec<u32>, AllocError>
        ensures numbers { IfOk result
            (λ ns. MentionsAll self.old (texts words.now) self.new ns.items) }
        ensures within { IfOk result
            (λ ns. (n : ℕ) → Has ns.items n → n < length self.new.nets) }
    {
        number_all(alloc, &mut self.nets, words)
    }

    /// Drives nets, and gives names to atoms, for a line at this place.
    pub fn make(
        &mut self,
        alloc: Global,
        driven: &[u32],
        atoms: &[&str],
        place: Place,
    ) -> Result<(), BlifError>
        requires { (n : ℕ) → Has driven.now n → n < length self.old.nets }
        ensures made { OnOk result (Makes self.old driven.now (texts atoms.now) self.new) }
        ensures refused { IfErr result (λ e. (e ≡ OutOfMemory)
            ⊎ CantMake self.old driven.now (texts atoms.now) place e) }
    {
        if let Some(net) = drive_all(&mut self.driven, driven)? {
            let net = Text::from_str(alloc, self.nets.text(net))?;
            return Err(BlifError::TwoDrivers { net });
        }
        if !take_words(&mut self.names, atoms)? {
            return Err(BlifError::BadLine { place });
        }
        Ok(())
    }
}

/// Whether a net is among those that are driven.
fn has_key(driven: &Driven, net: u32) -> bool
    ensures { IsTrue result ↔ Has driven.now.keys net }
{
    driven.contains(&net)
}
