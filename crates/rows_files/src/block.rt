// Blocks of lines, which are parted by blank lines: rows, and settings for the rows behind them.
use std::alloc::{AllocError, Global};

/// Lines under a name: a file, `SRC` for the source; or no name, for what stands behind a source.
#[derive(Drop)]
pub struct Part {
    pub name: String,
    pub text: String,
}

/// What the lines of a block say. A block with cards of a source, or with lines that are noted, is a row; one that
/// has settings alone is the head of the rows behind it.
#[derive(Drop)]
pub struct Block {
    alloc: Global,
    is_set: bool,
    /// What the row shows: its first comment.
    pub shows: String,
    pub parts: Vec<Part>,
    /// Names of parameter files beside the file of rows, apart by blanks.
    pub layouts: String,
    /// Lines in place of those of the parameter files that begin with the same name.
    pub params: Vec<String>,
    /// Names of files that aren't there.
    pub without: Vec<String>,
    /// The bound on steps.
    pub steps: String,
    /// The words of the commands that are given, where the row says them.
    pub commands: Vec<String>,
    /// The lines that are noted.
    pub notes: String,
    /// The records that unit 6 holds then, with an LF behind each.
    pub printed: String,
}

fn put(text: &mut String, line: &str) -> Result<(), AllocError> {
    text.push_str(line)?;
    text.push('\n')
}

impl Block {
    /// A block of no lines.
    pub fn new(alloc: Global) -> Block {
        Block {
            alloc,
            is_set: false,
            shows: String::new(alloc),
            parts: Vec::new(alloc),
            layouts: String::new(alloc),
            params: Vec::new(alloc),
            without: Vec::new(alloc),
            steps: String::new(alloc),
            commands: Vec::new(alloc),
            notes: String::new(alloc),
            printed: String::new(alloc),
        }
    }

    /// Whether the block is a row.
    pub fn is_row(&self) -> bool {
        !self.notes.is_empty() || self.parts.iter().any(|part| part.name.as_str() == "SRC")
    }

    /// Whether the block has settings, and is no row.
    pub fn is_head(&self) -> bool {
        self.is_set && !self.is_row()
    }

    /// Takes the next line.
    pub fn take(&mut self, line: &str) -> Result<(), AllocError> {
        if let Some(shows) = line.strip_prefix("-- ") {
            self.show(shows)
        } else if let Some(note) = line.strip_prefix("=> ") {
            put(&mut self.notes, note)
        } else if let Some(record) = line.strip_prefix("<") {
            put(
                &mut self.printed,
                record.strip_prefix(" ").unwrap_or(record),
            )
        } else if let Some(words) = line.strip_prefix("$ ") {
            let words = String::from_str(self.alloc, words)?;
            Ok(self.commands.push(words)?)
        } else if let Some(setting) = line.strip_prefix("% ") {
            self.set(setting)
        } else {
            self.put_card(line)
        }
    }

    fn show(&mut self, shows: &str) -> Result<(), AllocError> {
        if self.shows.is_empty() {
            self.shows.push_str(shows)?;
        }
        Ok(())
    }

    /// Takes a setting. One that there isn't is noted, as no command would.
    fn set(&mut self, setting: &str) -> Result<(), AllocError> {
        let (name, value) = setting.split_once(' ').unwrap_or((setting, ""));
        let owned = String::from_str(self.alloc, value)?;
        self.is_set = true;
        if name == "layouts" {
            self.layouts = owned;
        } else if name == "steps" {
            self.steps = owned;
        } else if name == "param" {
            self.params.push(owned)?;
        } else if name == "without" {
            self.without.push(owned)?;
        } else if name == "file" || name == "behind" {
            self.begin_part(owned)?;
        } else if name == "line" {
            self.put_card(value)?;
        } else {
            put(&mut self.notes, "no such setting")?;
        }
        Ok(())
    }

    fn begin_part(&mut self, name: String) -> Result<(), AllocError> {
        let text = String::new(self.alloc);
        Ok(self.parts.push(Part { name, text })?)
    }

    /// Puts a line behind those of the part that was begun last; the first is the source.
    fn put_card(&mut self, line: &str) -> Result<(), AllocError> {
        if self.parts.is_empty() {
            self.begin_part(String::from_str(self.alloc, "SRC")?)?;
        }
        match self.parts.last_mut() {
            Some(part) => put(&mut part.text, line),
            None => Ok(()),
        }
    }
}
