ghost use Rattle.least_cycle.specs.Walks.{IsLower};

/// The lower of a number and the one so far, if there is any.
pub(crate) fn lower(least: Option<u32>, other: u32) -> u32
    ensures { IsLower least other result }
{
    match least {
        Some(least) if least < other => least,
        _ => other,
    }
}
