ghost use Rattle.mode_edges.specs.Edges.{HasOneList};
ghost use Rattle.mode_edges.specs.PinWords.{HasOneReading};

/// A mode has one list of edges at most, for callers' proofs. It does nothing.
pub fn one_list()
    ensures { HasOneList }
{}

/// A text names one list of pins at most, for callers' proofs. It does nothing.
pub fn one_reading()
    ensures { HasOneReading }
{}
