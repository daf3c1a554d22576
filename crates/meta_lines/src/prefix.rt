ghost use Rattle.std.specs.Prelude.{◌≡◌, ◌⊎◌, ◌++◌, ◌↔◌, ◌≤◌, ◌<◌, map, length, IsTrue, IfOk, IfErr, OnOk};
ghost use Rattle.std.specs.List.{All, flat_map};
ghost use Rattle.fasm_text.specs.Names.{IsFeatureName};
ghost use Rattle.meta_parts.specs.Seen.{seen};
ghost use Rattle.meta_parts.specs.Words.{words_of};
ghost use Rattle.meta_lines.specs.declared.error.LineError.TheVariants.{OutOfMemory};
ghost use Rattle.meta_lines.specs.Prefixes.{ArePrefixes, RefusesPrefixes};

use crate::error::LineError;
use fasm_text::is_feature_name;
use meta_parts::{Line, names_are_texts, said_lines, text_of, words};
use sqlite_items::Items;
use std::alloc::{AllocError, Global};
use vtr_base::Text;

/// The prefixes that a text lists (`fasm_prefix`): words divided by white space, one for each of
/// `count` instances.
pub fn read_prefix(alloc: Global, text: &[u8], count: u32) -> Result<Items<Text>, LineError>
    ensures ok { IfOk result (λ prefixes. ArePrefixes text.now count prefixes) }
    ensures refused { IfErr result (λ e. (e ≡ OutOfMemory) ⊎ RefusesPrefixes text.now count e) }
{
    let said = said_lines(alloc, text)?;
    let lines = said.as_slice();
    if count_words(alloc, lines)? != u64::from(count) {
        return Err(LineError::PrefixCount);
    }
    let mut prefixes = Vec::new(alloc);
    for line in lines {
        let words = words(alloc, line.text)?;
        if !are_names(words.as_slice()) {
            return Err(LineError::FeatureName { line: line.number });
        }
        push_texts(alloc, &mut prefixes, words.as_slice())?;
    }
    Ok(Items::from_vec(prefixes))
}

/// How many words lines have.
fn count_words(alloc: Global, lines: &[Line<'_>]) -> Result<u64, AllocError>
    ensures { IfOk result (λ n.
        n ≡ length (flat_map (λ line. words_of line.text) (map seen lines.now))) }
{
    let mut count: u64 = 0;
    for line in lines {
        let words = words(alloc, line.text)?;
        let Some(more) = count.checked_add(words.len() as u64) else {
            return Err(AllocError);
        };
        count = more;
    }
    Ok(count)
}

/// Whether all words are features' names.
fn are_names(words: &[&[u8]]) -> bool
    ensures { IsTrue result ↔ All IsFeatureName (map (λ w. w.now) words.now) }
{
    for word in words {
        if !is_feature_name(*word) {
            return false;
        }
    }
    true
}

/// Appends the words as texts.
fn push_texts(alloc: Global, texts: &mut Vec<Text>, words: &[&[u8]]) -> Result<(), AllocError>
    requires { All IsFeatureName (map (λ w. w.now) words.now) }
    ensures { OnOk result (texts.new.items ≡ texts.old.items ++ map (λ w. w.now) words.now) }
{
    names_are_texts();
    for word in words {
        texts.push(text_of(alloc, *word)?)?;
    }
    Ok(())
}
