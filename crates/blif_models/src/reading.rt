use blif_drafts::Draft;
use blif_phases::Phase;

/// How far a file is read.
#[derive(Drop)]
pub(crate) struct Reading {
    pub phase: Phase,
    pub draft: Draft,
}
