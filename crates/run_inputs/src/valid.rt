ghost use Rattle.run_inputs.specs.Valid.{ReadsOneArch, IsReadWhereValid};

use arch_files::laws_of_files;
use mode_edges::one_reading;

/// The laws of architectures as inputs, for callers' proofs: a file spells one at most, and where
/// the files are told and the shelf's count of faults doesn't rise, one whose block types can all
/// be expanded stops a run for want of memory alone. It does nothing.
pub fn valid_is_read()
    ensures one { ReadsOneArch }
    ensures read { IsReadWhereValid }
{
    laws_of_files();
    one_reading();
}
