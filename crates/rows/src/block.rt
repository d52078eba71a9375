// Blocks of lines, which end at an empty line: a name; script lines behind `|`, or `:` where the line has no
// end; `+ names` where answers carry names; calls behind `<`; and what is to be printed behind `>`.
use crate::row::plain;
use crate::scripts::transcript;
use crate::stop::Stop;
use lib_text::Library;
use std::alloc::Global;

/// A session: its script and whether its answers carry names, then the calls of it, and what is to be printed.
#[derive(Drop)]
pub(crate) struct Block {
    script: String,
    names: bool,
    calls: String,
    wanted: String,
}

/// Adds a field, and the end of its line.
fn push_line(alloc: Global, lines: &mut String, field: &str) -> Result<(), Stop> {
    let line = plain(alloc, field)?;
    lines.push_str(&line)?;
    lines.push('\n')?;
    Ok(())
}

impl Block {
    pub(crate) fn new(alloc: Global) -> Block {
        Block {
            script: String::new(alloc),
            names: false,
            calls: String::new(alloc),
            wanted: String::new(alloc),
        }
    }

    /// Adds a line of the block.
    fn add(&mut self, alloc: Global, line: &str) -> Result<(), Stop> {
        let (mark, field) = line.split_once(' ').unwrap_or((line, ""));
        match mark {
            "|" => push_line(alloc, &mut self.script, field),
            ":" => Ok(self.script.push_str(&plain(alloc, field)?)?),
            "+" => {
                self.names = field == "names";
                Ok(())
            }
            "<" => push_line(alloc, &mut self.calls, field),
            ">" => push_line(alloc, &mut self.wanted, field),
            _ => Ok(()),
        }
    }

    /// A block of these lines.
    pub(crate) fn read(alloc: Global, text: &str) -> Result<Block, Stop> {
        let mut block = Block::new(alloc);
        for line in text.lines() {
            block.add(alloc, line)?;
        }
        Ok(block)
    }

    /// What is printed where the block says otherwise.
    pub(crate) fn differing(
        &self,
        alloc: Global,
        library: &Library,
    ) -> Result<Option<String>, Stop> {
        let script = self.script.as_bytes();
        let found = transcript(alloc, library, script, self.names, &self.calls)?;
        if found.as_str() == self.wanted.as_str() {
            return Ok(None);
        }
        Ok(Some(found))
    }
}
