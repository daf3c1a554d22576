ghost use Rattle.std.specs.Prelude.{◌≡◌, ◌⊎◌, ◌++◌, ◌∷◌, [], length, map, IfOk, IfErr};
ghost use Rattle.blif_elems.specs.Seen.{texts};
ghost use Rattle.blif_errors.specs.declared.error.BlifError.TheVariants.{OutOfMemory};
ghost use Rattle.blif_parts.specs.Adds.{out_name};
ghost use Rattle.blif_parts.specs.Models.{ModelSaid};
ghost use Rattle.blif_parts.specs.Refusals.{CantAddNets, CantAddOne};
ghost use Rattle.blif_drafts.specs.Making.{MentionsAndMakes};

use crate::pads::{lend_all, output_names};
use blif_books::Book;
use blif_errors::BlifError;
use sqlite_items::Items;
use std::alloc::Global;
use vtr_base::Place;

/// The nets of `.inputs`: each is driven, and an atom has its name.
pub(crate) fn make_inputs(
    alloc: Global,
    book: &mut Book,
    nets: &[&str],
    place: Place,
) -> Result<Items<u32>, BlifError>
    ensures made { IfOk result (λ numbers.
        MentionsAndMakes book.old (texts nets.now) numbers numbers (texts nets.now) book.new) }
    ensures refused { IfErr result (λ e. (e ≡ OutOfMemory) ⊎ ((m : ModelSaid)
        → m.book ≡ book.old
        → CantAddNets m (texts nets.now) (λ ns. ns) (texts nets.now) place e)) }
{
    let numbers = book.mention_all(alloc, nets)?;
    book.make(alloc, numbers.as_slice(), nets, place)?;
    Ok(Items::from_vec(numbers))
}

/// The nets of `.outputs`: none is driven, and an atom is named for each.
pub(crate) fn make_outputs(
    alloc: Global,
    book: &mut Book,
    nets: &[&str],
    place: Place,
) -> Result<Items<u32>, BlifError>
    ensures made { IfOk result (λ numbers. MentionsAndMakes book.old (texts nets.now) numbers []
        (map out_name (texts nets.now)) book.new) }
    ensures refused { IfErr result (λ e. (e ≡ OutOfMemory) ⊎ ((m : ModelSaid)
        → m.book ≡ book.old
        → CantAddNets m (texts nets.now) (λ ns. []) (map out_name (texts nets.now)) place e)) }
{
    let numbers = book.mention_all(alloc, nets)?;
    let names = output_names(alloc, nets)?;
    let atoms = lend_all(alloc, names.as_slice())?;
    book.make(alloc, &[], atoms.as_slice(), place)?;
    Ok(Items::from_vec(numbers))
}

/// The nets of a `.names`: its output is driven, and an atom has the output's name.
pub(crate) fn make_names(
    alloc: Global,
    book: &mut Book,
    inputs: &[&str],
    output: &str,
    place: Place,
) -> Result<(Items<u32>, u32), BlifError>
    ensures made { IfOk result (λ r. MentionsAndMakes book.old
        (texts inputs.now ++ output.now ∷ []) (r.0 ++ r.1 ∷ []) (r.1 ∷ []) (output.now ∷ [])
        book.new) }
    ensures width { IfOk result (λ r. length r.0 ≡ length inputs.now) }
    ensures refused { IfErr result (λ e. (e ≡ OutOfMemory) ⊎ ((m : ModelSaid)
        → m.book ≡ book.old → CantAddOne m (texts inputs.now) output.now [] place e)) }
{
    let ins = book.mention_all(alloc, inputs)?;
    let out = book.mention(output)?;
    book.make(alloc, &[out], &[output], place)?;
    Ok((Items::from_vec(ins), out))
}

/// The nets of a `.latch`, its data, output and control: the output is driven, and an atom has its
/// name.
pub(crate) fn make_latch(
    alloc: Global,
    book: &mut Book,
    loaded: &str,
    made: &str,
    control: &str,
    place: Place,
) -> Result<(u32, u32, u32), BlifError>
    ensures made { IfOk result (λ r. MentionsAndMakes book.old
        (loaded.now ∷ made.now ∷ control.now ∷ []) (r.0 ∷ r.1 ∷ r.2 ∷ []) (r.1 ∷ [])
        (made.now ∷ []) book.new) }
    ensures refused { IfErr result (λ e. (e ≡ OutOfMemory) ⊎ ((m : ModelSaid)
        → m.book ≡ book.old
        → CantAddOne m (loaded.now ∷ []) made.now (control.now ∷ []) place e)) }
{
    let data_net = book.mention(loaded)?;
    let out = book.mention(made)?;
    let control_net = book.mention(control)?;
    book.make(alloc, &[out], &[made], place)?;
    Ok((data_net, out, control_net))
}
