ghost use Rattle.std.specs.Prelude.{◌≡◌, ◌++◌, OnOk};
ghost use Rattle.blif_errors.specs.Telling.{blif_text, joined, commas, is_want_of_memory};

use crate::error::BlifError;
use std::alloc::AllocError;
use tell::{Tell, put_placed, put_two};
use vtr_base::Text;

impl Tell for BlifError {
    ghost told = { blif_text };

    ghost is_short = { is_want_of_memory };

    fn tell(&self, text: &mut Text) -> Result<(), AllocError> {
        match self {
            BlifError::Limit => text.push_str("40 Limit"),
            BlifError::BadLine { place } => put_placed(text, "41 BadLine ", *place),
            BlifError::TwoDrivers { net } => put_two(text, "42 TwoDrivers ", net.as_str()),
            BlifError::NoDriver { net } => put_two(text, "43 NoDriver ", net.as_str()),
            BlifError::WideNames { net } => put_two(text, "44 WideNames ", net.as_str()),
            BlifError::MixedCover { net } => put_two(text, "45 MixedCover ", net.as_str()),
            BlifError::LatchKind { net } => put_two(text, "46 LatchKind ", net.as_str()),
            BlifError::CombLoop { atoms } => {
                text.push_str("47 CombLoop ")?;
                put_joined(text, atoms.as_slice())
            }
            BlifError::Unsupported { word } => put_two(text, "48 Unsupported ", word.as_str()),
            BlifError::UnknownModel { name } => put_two(text, "49 UnknownModel ", name.as_str()),
            BlifError::OutOfMemory => text.push_str("memory"),
        }
    }

    fn is_short_of_memory(&self) -> bool {
        matches!(self, BlifError::OutOfMemory)
    }
}

/// Appends names with commas between them.
fn put_joined(text: &mut Text, names: &[Text]) -> Result<(), AllocError>
    ensures { OnOk result (text.new ≡ text.old ++ joined names.now) }
{
    match names {
        [] => Ok(()),
        [first, others @ ..] => {
            text.push_str(first.as_str())?;
            put_commas(text, others)
        }
    }
}

/// Appends names, each behind a comma.
fn put_commas(text: &mut Text, names: &[Text]) -> Result<(), AllocError>
    ensures { OnOk result (text.new ≡ text.old ++ commas names.now) }
{
    for name in names {
        text.push_str(",")?;
        text.push_str(name.as_str())?;
    }
    Ok(())
}
