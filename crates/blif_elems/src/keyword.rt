ghost use Rattle.std.specs.Prelude.{◌≡◌, ◌↔◌, IsTrue, MatchOption};
ghost use Rattle.blif_elems.specs.declared.keyword.Keyword.{Keyword as Word};
ghost use Rattle.blif_elems.specs.Keywords.{keyword_text, HasDot};

/// A word that begins a line.
#[derive(Clone, Copy, Debug, PartialEq, Eq)]
pub(crate) enum Keyword {
    Model,
    Inputs,
    Outputs,
    Names,
    Latch,
    Subckt,
    Param,
    Attr,
    Cname,
    End,
}

/// The keyword that a word is.
pub(crate) fn keyword_of(word: &str) -> Option<Keyword>
    ensures { MatchOption result ((k : Word) → word.now ≡ keyword_text k → ⊥)
        (λ k. word.now ≡ keyword_text k) }
{
    match word.as_bytes() {
        b".model" => Some(Keyword::Model),
        b".inputs" => Some(Keyword::Inputs),
        b".outputs" => Some(Keyword::Outputs),
        b".names" => Some(Keyword::Names),
        b".latch" => Some(Keyword::Latch),
        b".subckt" => Some(Keyword::Subckt),
        b".param" => Some(Keyword::Param),
        b".attr" => Some(Keyword::Attr),
        b".cname" => Some(Keyword::Cname),
        b".end" => Some(Keyword::End),
        _ => None,
    }
}

/// Whether a word begins with a dot.
pub(crate) fn has_dot(word: &str) -> bool
    ensures { IsTrue result ↔ HasDot word.now }
{
    matches!(word.as_bytes(), [b'.', ..])
}
