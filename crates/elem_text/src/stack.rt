ghost use Rattle.std.specs.Prelude.{◌≡◌, ◌≤◌, ◌<◌, ◌∷◌, length, IsTrue, ◌↔◌, OnOk, IsErrOf, IsUtf8, MatchOption};
ghost use Rattle.elem_text.specs.Bytes.{AreAll, is_white};
ghost use Rattle.elem_text.specs.Tree.{opens, closes, hollow, run};
ghost use Rattle.elem_text.specs.Stack.{stack_of, top_first, HasRoom, MayHold, IsAllowed, next, outside, IsFinished, IsUnfinished};
ghost use Rattle.elem_text.specs.declared.stack.Refusal.TheVariants.{OutOfMemory};

use crate::bytes::white;
use crate::elem::{Attr, Elem};
use crate::references::{kept, push_decoded};
use sqlite_items::Items;
use std::alloc::{AllocError, Global};
use std::mem;
use vtr_base::{Place, Text};

/// An element whose end tag is still to come.
#[derive(Drop)]
pub struct Frame {
    pub name: Text,
    pub attrs: Items<Attr>,
    pub text: Text,
    pub kids: Items<Elem>,
    pub place: Place,
}

/// The elements that are open. The first of them stands for the file: it has no name, and its
/// child is the root.
#[derive(Drop)]
pub struct Opened {
    pub top: Frame,
    pub below: Items<Frame>,
}

/// Why a piece may not stand here.
#[derive(Clone, Copy, Drop)]
pub enum Refusal {
    Broken,
    Deep,
    OutOfMemory,
}

impl From<AllocError> for Refusal {
    ghost from_gives = { λ _ e. e ≡ OutOfMemory };

    fn from(_e: AllocError) -> Refusal {
        Refusal::OutOfMemory
    }
}

/// At most so many elements are open at once.
const DEEPEST: usize = 64;

impl Opened {
    /// Where a file begins nothing is open.
    pub fn new(alloc: Global) -> Opened
        ensures { stack_of result ≡ outside }
    {
        Opened {
            top: Frame {
                name: Text::new(alloc),
                attrs: Items::new(alloc),
                text: Text::new(alloc),
                kids: Items::new(alloc),
                place: Place { line: 1, byte: 1 },
            },
            below: Items::new(alloc),
        }
    }

    /// Whether an element may begin here: a file has one root.
    fn has_room(&self) -> bool
        ensures { IsTrue result ↔ HasRoom (stack_of self.now).top (stack_of self.now).below }
    {
        if !self.below.is_empty() {
            return true;
        }
        self.top.kids.is_empty()
    }

    /// Whether a run of text may stand here: beside the root there is only white space.
    fn may_hold(&self, raw: &[u8]) -> bool
        ensures { IsTrue result ↔ MayHold (stack_of self.now).below raw.now }
    {
        if !self.below.is_empty() {
            return true;
        }
        let (_, rest) = white(raw);
        rest.is_empty()
    }

    /// A start tag.
    pub fn open(
        &mut self,
        alloc: Global,
        name: &[u8],
        attrs: Items<Attr>,
        place: Place,
    ) -> Result<(), Refusal>
        requires { IsUtf8 name.now }
        ensures ok { OnOk result (IsAllowed (stack_of self.old) (opens name.now attrs place)
            × (stack_of self.new ≡ next (stack_of self.old) (opens name.now attrs place))) }
        ensures shallow { OnOk result (length (stack_of self.old).below < 64) }
        ensures broken { IsErrOf result Refusal.Broken → IsAllowed (stack_of self.old)
            (opens name.now attrs place) → ⊥ }
        ensures deep { IsErrOf result Refusal.Deep → IsAllowed (stack_of self.old)
            (opens name.now attrs place) × (64 ≤ length (stack_of self.old).below) }
    {
        if !self.has_room() {
            return Err(Refusal::Broken);
        }
        if self.below.len() >= DEEPEST {
            return Err(Refusal::Deep);
        }
        let frame = Frame {
            name: kept(alloc, name)?,
            attrs,
            text: Text::new(alloc),
            kids: Items::new(alloc),
            place,
        };
        let outer = mem::replace(&mut self.top, frame);
        self.below.push(outer)?;
        Ok(())
    }

    /// An empty tag.
    pub fn leaf(
        &mut self,
        alloc: Global,
        name: &[u8],
        attrs: Items<Attr>,
        place: Place,
    ) -> Result<(), Refusal>
        requires { IsUtf8 name.now }
        ensures ok { OnOk result (IsAllowed (stack_of self.old) (hollow name.now attrs place)
            × (stack_of self.new ≡ next (stack_of self.old) (hollow name.now attrs place))) }
        ensures shallow { OnOk result (length (stack_of self.old).below < 64) }
        ensures broken { IsErrOf result Refusal.Broken → IsAllowed (stack_of self.old)
            (hollow name.now attrs place) → ⊥ }
        ensures deep { IsErrOf result Refusal.Deep → IsAllowed (stack_of self.old)
            (hollow name.now attrs place) × (64 ≤ length (stack_of self.old).below) }
    {
        if !self.has_room() {
            return Err(Refusal::Broken);
        }
        if self.below.len() >= DEEPEST {
            return Err(Refusal::Deep);
        }
        let name = kept(alloc, name)?;
        self.top.kids.push(Elem {
            name,
            attrs,
            text: Text::new(alloc),
            kids: Items::new(alloc),
            place,
        })?;
        Ok(())
    }

    /// An end tag.
    pub fn close(&mut self, name: &[u8]) -> Result<(), Refusal>
        ensures ok { OnOk result (IsAllowed (stack_of self.old) (closes name.now)
            × (stack_of self.new ≡ next (stack_of self.old) (closes name.now))) }
        ensures broken { IsErrOf result Refusal.Broken → IsAllowed (stack_of self.old)
            (closes name.now) → ⊥ }
        ensures deep { IsErrOf result Refusal.Deep → ⊥ }
    {
        if !self.top.name.is(name) {
            return Err(Refusal::Broken);
        }
        let Some(outer) = self.below.pop() else {
            return Err(Refusal::Broken);
        };
        let inner = mem::replace(&mut self.top, outer);
        let Frame {
            name,
            attrs,
            text,
            kids,
            place,
        } = inner;
        self.top.kids.push(Elem {
            name,
            attrs,
            text,
            kids,
            place,
        })?;
        Ok(())
    }

    /// A run of text.
    pub fn text(&mut self, raw: &[u8]) -> Result<(), Refusal>
        requires { IsUtf8 raw.now }
        ensures ok { OnOk result (IsAllowed (stack_of self.old) (run raw.now)
            × (stack_of self.new ≡ next (stack_of self.old) (run raw.now))) }
        ensures broken { IsErrOf result Refusal.Broken → IsAllowed (stack_of self.old) (run raw.now)
            → ⊥ }
        ensures deep { IsErrOf result Refusal.Deep → ⊥ }
    {
        if !self.may_hold(raw) {
            return Err(Refusal::Broken);
        }
        push_decoded(&mut self.top.text, raw)?;
        Ok(())
    }

    /// The root, where the file may end here.
    pub fn root(self) -> Option<Elem>
        ensures { MatchOption result (IsUnfinished (stack_of self))
            (λ e. IsFinished (stack_of self) e) }
    {
        let Opened { mut top, below } = self;
        if !below.is_empty() {
            return None;
        }
        top.kids.pop()
    }
}
