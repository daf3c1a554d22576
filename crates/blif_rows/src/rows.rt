use crate::facts::facts_of;
use anyhow::{Context, Result, bail};
use arch_files::read_arch;
use arch_types::Arch;
use blif_errors::BlifError;
use blif_net::read_blif;
use std::alloc::Global;
use std::fs;
use std::rt::Files;
use stored_rows::{Row, Script, Step};
use tell::Tell;
use vtr_base::Text;

/// Reads rows line by line.
#[derive(Drop)]
pub struct Rows {
    alloc: Global,
    script: Script,
    arch: Option<Arch>,
}

impl Rows {
    pub fn new(alloc: Global) -> Rows {
        Rows {
            alloc,
            script: Script::new(alloc),
            arch: None,
        }
    }

    /// Takes one line, and answers the row that is to be tried then, if any.
    pub fn line<R: Files + AllocGlobal>(&mut self, rt: &R, line: &str) -> Result<Option<Row>> {
        match self.script.line(line)? {
            Step::Done => Ok(None),
            Step::Try(row) => Ok(Some(row)),
            Step::Own(word, path) => {
                let number = self.script.number();
                self.begin(rt, word, path)
                    .context(format_args!("line {number} of the rows"))?;
                Ok(None)
            }
        }
    }

    /// A line that names a file, or a text that begins with none.
    fn begin<R: Files + AllocGlobal>(&mut self, rt: &R, word: &str, path: &str) -> Result<()> {
        let bytes = if path.is_empty() {
            Vec::new(self.alloc)
        } else {
            fs::read(rt, path).context(format_args!("reading {path}"))?
        };
        match word {
            "blif" => self.script.begin(bytes),
            "arch" => self.arch = Some(architecture(self.alloc, bytes.as_slice())?),
            _ => bail!("no line begins with {word}"),
        }
        Ok(())
    }

    /// What is told of a row's text over the architecture: the facts of its netlist, or the
    /// refusal.
    pub fn told(&self, alloc: Global, row: &Row) -> Result<Vec<String>> {
        let Some(arch) = &self.arch else {
            bail!("no architecture has been given");
        };
        match read_blif(alloc, row.text.as_slice(), arch) {
            Ok(netlist) => Ok(facts_of(alloc, &netlist, arch)?),
            Err(error) => refusal(alloc, &error),
        }
    }
}

/// The architecture that the bytes of a file say.
fn architecture(alloc: Global, bytes: &[u8]) -> Result<Arch> {
    if bytes.len() > u32::MAX as usize {
        bail!("the architecture is too long");
    }
    Ok(read_arch(alloc, bytes)?)
}

/// The one answer that a refusal is.
fn refusal(alloc: Global, error: &BlifError) -> Result<Vec<String>> {
    let mut text = Text::new(alloc);
    error.tell(&mut text)?;
    let mut told = Vec::new(alloc);
    told.push(String::from_str(alloc, text.as_str())?)?;
    Ok(told)
}
