ghost use Rattle.std.specs.Prelude.{◌≡◌, ◌<◌, ◌++◌, ◌∷◌, [], ℕ, length, IfOk, MatchBool};
ghost use Rattle.vtr_base.specs.Lists.{Has};
ghost use Rattle.blif_elems.specs.Seen.{texts};
ghost use Rattle.blif_nets.specs.Growth.{AddsAll, HasKnown};
ghost use Rattle.blif_nets.specs.Mentions.{IsNumbered, NumbersAll};

use names::Names;
use std::alloc::{AllocError, Global};
use vtr_base::Text;

/// The numbers of nets by these words, each that of its first mention.
pub fn number_all(alloc: Global, nets: &mut Names, words: &[&str]) -> Result<Vec<u32>, AllocError>
    ensures numbers { IfOk result
        (λ ns. NumbersAll nets.old (texts words.now) nets.new ns.items) }
    ensures within { IfOk result
        (λ ns. (n : ℕ) → Has ns.items n → n < length nets.new) }
{
    let mut numbers = Vec::new(alloc);
    for word in words {
        numbers.push(number_one(nets, word)?)?;
    }
    Ok(numbers)
}

/// The number of the net of this name. More than 2^32 - 1 names are told as want of memory.
pub fn number_one(nets: &mut Names, word: &str) -> Result<u32, AllocError>
    ensures { IfOk result (λ n. IsNumbered nets.old word.now nets.new n) }
{
    if nets.count() == u32::MAX {
        return Err(AllocError);
    }
    let number = nets.number(word)?;
    nets.law();
    Ok(number)
}

/// Takes a name for an atom, and tells whether none had it before. More than 2^32 - 1 names are
/// told as want of memory.
pub fn take_name(names: &mut Names, name: &str) -> Result<bool, AllocError>
    ensures { IfOk result (λ is_new. MatchBool is_new
        ((Has names.old name.now → ⊥) × (names.new ≡ names.old ++ name.now ∷ []))
        (Has names.old name.now)) }
{
    if names.find(name).is_some() {
        return Ok(false);
    }
    if names.count() == u32::MAX {
        return Err(AllocError);
    }
    names.number(name)?;
    Ok(true)
}

/// Takes each of these names for an atom, and tells whether none of them was taken before.
pub fn take_words(names: &mut Names, words: &[&str]) -> Result<bool, AllocError>
    ensures { IfOk result (λ are_new. MatchBool are_new
        (AddsAll names.old (texts words.now) names.new)
        (HasKnown names.old (texts words.now))) }
{
    for word in words {
        if !take_name(names, word)? {
            return Ok(false);
        }
    }
    Ok(true)
}

/// Takes each of these names for an atom, and tells whether none of them was taken before.
pub fn take_texts(names: &mut Names, more: &[Text]) -> Result<bool, AllocError>
    ensures { IfOk result (λ are_new. MatchBool are_new
        (AddsAll names.old more.now names.new)
        (HasKnown names.old more.now)) }
{
    for text in more {
        if !take_name(names, text.as_str())? {
            return Ok(false);
        }
    }
    Ok(true)
}
