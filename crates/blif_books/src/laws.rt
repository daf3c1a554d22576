ghost use Rattle.blif_books.specs.Laws.{HasOneBook};

/// Tells a caller's proof that lines mention, drive and name in one way, or can't in one way, and
/// never both. It does nothing.
pub fn one_book()
    ensures { HasOneBook }
{
    blif_nets::one_numbering();
}
