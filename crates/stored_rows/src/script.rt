use crate::row::{Row, replaced};
use anyhow::{Context, Result};
use std::alloc::Global;
use std::{mem, str};

/// Stored rows as they are read line by line.
#[derive(Drop)]
pub struct Script {
    alloc: Global,
    number: u64,
    text: Vec<u8>,
    /// What a line `old` looks for, until its line `new` comes.
    old: String,
    wanted: Vec<String>,
    only: bool,
}

/// What a line of the stored rows leads to.
#[derive(Drop)]
pub enum Step<'a> {
    /// Nothing more.
    Done,
    /// This row is to be tried.
    Try(Row),
    /// The line is the program's own: its first word, and what stands behind that.
    Own(&'a str, &'a str),
}

impl Script {
    pub fn new(alloc: Global) -> Script {
        Script {
            alloc,
            number: 0,
            text: Vec::new(alloc),
            old: String::new(alloc),
            wanted: Vec::new(alloc),
            only: false,
        }
    }

    /// The text of the next rows begins anew with these bytes.
    pub fn begin(&mut self, text: Vec<u8>) {
        self.text = text;
    }

    /// The number of the line that was taken last.
    pub fn number(&self) -> u64 {
        self.number
    }

    /// Takes one line.
    pub fn line<'a>(&mut self, line: &'a str) -> Result<Step<'a>> {
        self.number = self.number.saturating_add(1);
        let number = self.number;
        let (word, rest) = line.split_once(' ').unwrap_or((line, ""));
        self.step(word, rest)
            .context(format_args!("line {number} of the rows"))
    }

    /// What a line leads to, by its first word and what stands behind that.
    fn step<'a>(&mut self, word: &'a str, rest: &'a str) -> Result<Step<'a>> {
        match word {
            "#" | "case" => Ok(Step::Done),
            "" if self.wanted.is_empty() => Ok(Step::Done),
            "" => Ok(Step::Try(self.ended()?)),
            "try" => {
                let row = Row::of_try(self.alloc, self.number, self.text.as_slice(), rest)?;
                Ok(Step::Try(row))
            }
            _ if self.add(word, rest)? => Ok(Step::Done),
            _ => Ok(Step::Own(word, rest)),
        }
    }

    /// The row that the last lines say. Its text stays for the next one.
    fn ended(&mut self) -> Result<Row> {
        let none = Vec::new(self.alloc);
        Ok(Row {
            line: self.number,
            text: self.text.clone()?,
            wanted: mem::replace(&mut self.wanted, none),
            only: mem::replace(&mut self.only, false),
        })
    }

    /// A line that changes the text or adds to what is wanted; false where it does neither.
    fn add(&mut self, word: &str, rest: &str) -> Result<bool> {
        match word {
            "|" => {
                self.text.extend_from_slice(rest.as_bytes())?;
                self.text.push(b'\n')?;
            }
            "," => self.text.extend_from_slice(rest.as_bytes())?,
            "repeat" => {
                let (count, piece) = rest.split_once(' ').context("nothing to repeat")?;
                for _ in 0..count.parse::<u32>()? {
                    self.text.extend_from_slice(piece.as_bytes())?;
                }
            }
            "count" => {
                let (count, piece) = rest.split_once(' ').context("nothing to count")?;
                let (before, behind) = piece.split_once('#').context("no # to count at")?;
                for number in 0..count.parse::<u32>()? {
                    let line = format!(in self.alloc; "{before}{number}{behind}\n")?;
                    self.text.extend_from_slice(line.as_bytes())?;
                }
            }
            "byte" => self.text.push(rest.parse::<u8>()?)?,
            "old" => self.old = String::from_str(self.alloc, rest)?,
            "new" => {
                let text = str::from_utf8(self.text.as_slice())?;
                let text = replaced(self.alloc, text, self.old.as_str(), rest)?;
                self.text = Vec::from_slice(self.alloc, text.as_bytes())?;
            }
            "=" => self.wanted.push(String::from_str(self.alloc, rest)?)?,
            "only" => self.only = true,
            _ => return Ok(false),
        }
        Ok(true)
    }
}
