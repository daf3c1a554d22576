ghost use Rattle.std.specs.Prelude.{◌≡◌, ◌⊎◌, ℕ, List, Some, map, slice_get, IfErr, IfOk, OnOk};
ghost use Rattle.std.specs.List.{All};
ghost use Rattle.vtr_base.specs.Lists.{IsFirstPlace};
ghost use Rattle.arch_types.specs.declared.arch.CellModel.{CellModel};
ghost use Rattle.arch_types.specs.Models.{model_names};
ghost use Rattle.blif_elems.specs.Seen.{texts};
ghost use Rattle.blif_elems.specs.Statements.{says_box};
ghost use Rattle.blif_errors.specs.declared.error.BlifError.TheVariants.{OutOfMemory};
ghost use Rattle.blif_pins.specs.Pins.{ArePins};
ghost use Rattle.blif_pins.specs.Seen.{said, HasSide};
ghost use Rattle.blif_parts.specs.Models.{ModelSaid, boxes_of};
ghost use Rattle.blif_parts.specs.Refusals.{CantAdd, CantPlaceBox};
ghost use Rattle.blif_drafts.specs.Making.{PlacesBox};
ghost use Rattle.blif_drafts.specs.Seen.{Grows, Holds};

use crate::Draft;
use crate::opening::open_box;
use blif_books::Book;
use blif_errors::BlifError;
use blif_items::{PinAt, cell_name, output_nets, outputs_are_nets, place_pins};
use blif_pins::{BoxModels, BoxPin};
use sqlite_items::Items;
use std::alloc::Global;
use vtr_base::{Place, Text};

impl Draft {
    /// Adds a box: the name of its model, and the words behind it.
    pub(crate) fn add_box(
        &mut self,
        alloc: Global,
        models: &BoxModels<'_>,
        name: &str,
        words: &[&str],
        place: Place,
    ) -> Result<(), BlifError>
        ensures added { OnOk result ((m : ModelSaid) → Holds m self.old
            → Grows models.now m (says_box name.now (texts words.now)) self.new) }
        ensures refused { IfErr result (λ e. (e ≡ OutOfMemory)
            ⊎ ((m : ModelSaid) → Holds m self.old
            → CantAdd models.now m (says_box name.now (texts words.now)) place e)) }
    {
        let Some(number) = models.find(name) else {
            let name = Text::from_str(alloc, name)?;
            return Err(BlifError::UnknownModel { name });
        };
        let Some(pins) = models.read_pins(alloc, number, words)? else {
            return Err(BlifError::BadLine { place });
        };
        self.add_pins(alloc, number, pins.as_slice(), place)
    }

    /// Adds a box of the model of this number, with these pins.
    fn add_pins(
        &mut self,
        alloc: Global,
        number: u32,
        pins: &[BoxPin<'_>],
        place: Place,
    ) -> Result<(), BlifError>
        requires { (model : CellModel) × All (HasSide model) pins.now }
        ensures added { OnOk result ((models : List CellModel) (name : List ℕ)
            (words : List (List ℕ)) (model : CellModel) (m : ModelSaid) → Holds m self.old
            → IsFirstPlace (model_names models) name number → slice_get models number ≡ Some model
            → ArePins model words (map said pins.now) → All (HasSide model) pins.now
            → Grows models m (says_box name words) self.new) }
        ensures refused { IfErr result (λ e. (e ≡ OutOfMemory)
            ⊎ ((model : CellModel) (m : ModelSaid) → Holds m self.old
            → All (HasSide model) pins.now
            → CantPlaceBox m model (map said pins.now) place e)) }
    {
        let (name, placed) = place_box(alloc, &mut self.book, pins, self.elements.boxes, place)?;
        self.elements.open(open_box(alloc, name, number, placed))?;
        Ok(())
    }
}

/// The nets and the name of a box before which so many stand: its outputs are driven, and an atom
/// has its name.
fn place_box(
    alloc: Global,
    book: &mut Book,
    pins: &[BoxPin<'_>],
    boxes: u32,
    place: Place,
) -> Result<(Text, Items<PinAt>), BlifError>
    requires { (model : CellModel) × All (HasSide model) pins.now }
    ensures made { IfOk result (λ r. (model : CellModel) → All (HasSide model) pins.now
        → PlacesBox model (map said pins.now) boxes book.old r.1 r.0 book.new) }
    ensures refused { IfErr result (λ e. (e ≡ OutOfMemory)
        ⊎ ((model : CellModel) (m : ModelSaid) → m.book ≡ book.old → boxes ≡ boxes_of m.items
        → All (HasSide model) pins.now → CantPlaceBox m model (map said pins.now) place e)) }
{
    outputs_are_nets();
    let placed = place_pins(alloc, book, pins)?;
    let outs = output_nets(alloc, placed.as_slice())?;
    let name = cell_name(alloc, book, outs.as_slice(), boxes)?;
    book.make(alloc, outs.as_slice(), &[name.as_str()], place)?;
    Ok((name, Items::from_vec(placed)))
}
