use fasm_text::read_fasm;
use std::alloc::{AllocError, Global};
use std::fmt::Write;
use tell::Tell;
use vtr_base::Text;

/// A text and what is wanted of it.
#[derive(Drop)]
pub struct Row {
    text: String,
    wanted: String,
}

impl Row {
    pub fn new(alloc: Global) -> Row {
        Row {
            text: String::new(alloc),
            wanted: String::new(alloc),
        }
    }

    /// Takes one line of the row: a line of the text, or one of what is wanted.
    pub fn line(&mut self, line: &str) -> Result<(), AllocError> {
        if let Some(text) = line.strip_prefix("| ") {
            self.text.push_str(text)?;
            return self.text.push('\n');
        }
        self.wanted.push_str(line)?;
        self.wanted.push('\n')
    }

    pub fn wanted(&self) -> &str {
        self.wanted.as_str()
    }

    /// What the text sets, a line for each bit, or its refusal.
    pub fn answer(&self, alloc: Global) -> Result<String, AllocError> {
        let mut told = String::new(alloc);
        match read_fasm(alloc, self.text.as_bytes()) {
            Ok(set) => {
                for place in 0..set.len() {
                    if let Some((name, bit)) = set.get(place) {
                        let name = std::str::from_utf8(name).unwrap_or("?");
                        writeln!(told, "= {name} {bit}")?;
                    }
                }
            }
            Err(error) => {
                let mut text = Text::new(alloc);
                error.tell(&mut text)?;
                let text = text.as_str();
                writeln!(told, "! {text}")?;
            }
        }
        Ok(told)
    }
}
