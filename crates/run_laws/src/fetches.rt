ghost use Rattle.run_laws.specs.Fetches.{IsFetchedInRun, StopsInRun, FetchesOneText, IsFetchedWhereThere};

/// Laws of fetches, for callers' proofs. What a part of a run fetched, the run did, and a later
/// part that stopped at a fetch stops the run so. Where the files are told, a name has the bytes of
/// one file, and where it is there, has room and the shelf doesn't fail, its fetch stops for want
/// of memory alone. It does nothing.
pub fn fetch_laws()
    ensures fetched { IsFetchedInRun }
    ensures stopped { StopsInRun }
    ensures once { FetchesOneText }
    ensures calm { IsFetchedWhereThere }
{}
