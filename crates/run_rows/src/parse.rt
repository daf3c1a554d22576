use crate::case::Case;
use crate::table::Table;
use crate::text::replace_first;
use anyhow::{Context, Result, bail};
use std::alloc::{AllocError, Global};
use std::rt::Files;
use std::{fs, mem};

/// Where the next lines of text go.
#[derive(Drop)]
enum Target {
    Nowhere,
    Input(String),
    Printed,
    Output(String),
}

/// Reads cases line by line. A case begins with a line `case NAME`; docs/CONTRIBUTING.md has the
/// lines that may follow.
#[derive(Drop)]
pub struct Parser {
    alloc: Global,
    number: u64,
    case: Option<Case>,
    target: Target,
    /// What a line `old` looks for, until its line `new` comes.
    old: String,
    /// What the rows of the case change, if it is a table, and isn't run itself.
    table: Option<Table>,
}

impl Parser {
    pub fn new(alloc: Global) -> Parser {
        Parser {
            alloc,
            number: 0,
            case: None,
            target: Target::Nowhere,
            old: String::new(alloc),
            table: None,
        }
    }

    /// The case that the last lines say.
    pub fn into_case(self) -> Option<Case> {
        match self.table {
            Some(_) => None,
            None => self.case,
        }
    }

    /// Takes one line. One that begins a case answers the case before it, unless that is a table;
    /// a row of a table answers its own case.
    pub fn line<R: Files + AllocGlobal>(&mut self, rt: &R, line: &str) -> Result<Option<Case>> {
        self.number = self.number.saturating_add(1);
        let (word, rest) = line.split_once(' ').unwrap_or((line, ""));
        if word == "case" {
            return Ok(self.begin(rest)?);
        }
        if word == "try" {
            return self.row(rest).map(Some);
        }
        if word.is_empty() || word == "#" {
            return Ok(None);
        }
        let number = self.number;
        match word {
            "|" | "," | "repeat" | "cut" | "byte" | "old" | "new" => self.text_line(word, rest),
            "copy" => self.copy_line(rt, rest),
            _ => self.case_line(word, rest),
        }
        .context(format_args!("line {number} of the cases"))?;
        Ok(None)
    }

    /// A case of this name begins.
    fn begin(&mut self, name: &str) -> Result<Option<Case>, AllocError> {
        let next = Case::new(self.alloc, name, self.number)?;
        self.target = Target::Nowhere;
        let before = mem::replace(&mut self.case, Some(next));
        match mem::replace(&mut self.table, None) {
            Some(_) => Ok(None),
            None => Ok(before),
        }
    }

    /// The case that a row of the table makes.
    fn row(&self, row: &str) -> Result<Case> {
        let number = self.number;
        match (&self.case, &self.table) {
            (Some(case), Some(table)) => table.row(self.alloc, case, number, row),
            _ => bail!("no table has begun"),
        }
        .context(format_args!("line {number} of the cases"))
    }

    /// A line that says one thing of the case.
    fn case_line(&mut self, word: &str, rest: &str) -> Result<()> {
        let Some(case) = &mut self.case else {
            bail!("no case has begun");
        };
        match word {
            "words" => {
                for part in rest.split_whitespace() {
                    case.words.push(String::from_str(self.alloc, part)?)?;
                }
            }
            "word" => case.words.push(String::from_str(self.alloc, rest)?)?,
            "status" => case.status = rest.parse::<u8>()?,
            "shelf-fails" => case.shelf_fails.push(rest.parse::<u64>()?)?,
            "sink-fails" => case.sink_fails.push(rest.parse::<u64>()?)?,
            "prints" => self.target = Target::Printed,
            "table" => self.table = Some(Table::of_line(self.alloc, rest)?),
            "file" => {
                let name = String::from_str(self.alloc, rest)?;
                case.files.insert(name, Vec::new(self.alloc))?;
                self.target = Target::Input(String::from_str(self.alloc, rest)?);
            }
            "writes" => {
                let name = String::from_str(self.alloc, rest)?;
                case.written.insert(name, Vec::new(self.alloc))?;
                self.target = Target::Output(String::from_str(self.alloc, rest)?);
            }
            _ => bail!("no line begins with {word}"),
        }
        Ok(())
    }

    /// `copy NAME SAMPLE`: the file NAME of the case is a copy of a sample.
    fn copy_line<R: Files + AllocGlobal>(&mut self, rt: &R, rest: &str) -> Result<()> {
        let Some(case) = &mut self.case else {
            bail!("no case has begun");
        };
        let (name, sample) = rest.split_once(' ').unwrap_or((rest, rest));
        let bytes = fs::read(rt, sample).context(format_args!("the sample {sample}"))?;
        case.files
            .insert(String::from_str(self.alloc, name)?, bytes)?;
        self.target = Target::Input(String::from_str(self.alloc, name)?);
        Ok(())
    }

    /// A line of the text that the case is saying.
    fn text_line(&mut self, word: &str, rest: &str) -> Result<()> {
        let Some(case) = &mut self.case else {
            bail!("no case has begun");
        };
        let text = match &self.target {
            Target::Printed => Some(&mut case.printed),
            Target::Input(name) => case.files.get_mut(name.as_str()),
            Target::Output(name) => case.written.get_mut(name.as_str()),
            Target::Nowhere => None,
        };
        let Some(text) = text else {
            bail!("no file or print has begun");
        };
        match word {
            "|" => {
                text.extend_from_slice(rest.as_bytes())?;
                text.push(b'\n')?;
            }
            "," => text.extend_from_slice(rest.as_bytes())?,
            "repeat" => {
                let (count, piece) = rest.split_once(' ').unwrap_or((rest, ""));
                for _ in 0..count.parse::<u32>()? {
                    text.extend_from_slice(piece.as_bytes())?;
                }
            }
            "cut" => text.truncate(rest.parse::<usize>()?),
            "byte" => text.push(rest.parse::<u8>()?)?,
            "old" => self.old = String::from_str(self.alloc, rest)?,
            _ => {
                if !replace_first(text, self.old.as_bytes(), rest.as_bytes())? {
                    bail!("the text doesn't have what is to be replaced");
                }
            }
        }
        Ok(())
    }
}
