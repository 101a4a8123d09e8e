// The text that is being made.

use hack_types::{NameId, Names, NoMemory, Place};
use std::alloc::Global;

/// Text that grows word by word. Want of memory is noted, and answered at the end.
#[derive(Drop)]
pub struct Out<'n> {
    alloc: Global,
    names: &'n Names,
    text: Vec<u8>,
    failed: bool,
}

impl<'n> Out<'n> {
    /// No text yet. Names stand as their texts in `names`.
    pub fn new(alloc: Global, names: &'n Names) -> Self {
        Out {
            alloc,
            names,
            text: Vec::new(alloc),
            failed: false,
        }
    }

    /// Adds bytes as they are.
    pub fn push(&mut self, bytes: &[u8]) {
        if self.text.extend_from_slice(bytes).is_err() {
            self.failed = true;
        }
    }

    // Adds a blank, but at the start and behind a bracket.
    fn blank(&mut self) {
        match self.text.last() {
            None | Some(b'(') => {}
            _ => self.push(b" "),
        }
    }

    /// Adds a word.
    pub fn word(&mut self, word: &str) {
        self.blank();
        self.push(word.as_bytes());
    }

    /// Begins a node.
    pub fn open(&mut self, word: &str) {
        self.blank();
        self.push(b"(");
        self.push(word.as_bytes());
    }

    /// Begins a node that has a place.
    pub fn open_at(&mut self, word: &str, at: Place) {
        self.open(word);
        self.place(at);
    }

    /// Ends a node.
    pub fn close(&mut self) {
        self.push(b")");
    }

    /// Adds a node that is a word with a place.
    pub fn leaf(&mut self, word: &str, at: Place) {
        self.open_at(word, at);
        self.close();
    }

    /// Adds a place to the word before it.
    pub fn place(&mut self, at: Place) {
        let line = at.line;
        let column = at.column;
        match format!(in self.alloc; "@{line}:{column}") {
            Ok(text) => self.push(text.as_bytes()),
            Err(_) => self.failed = true,
        }
    }

    /// Adds a number.
    pub fn number(&mut self, number: u64) {
        self.blank();
        match format!(in self.alloc; "{number}") {
            Ok(text) => self.push(text.as_bytes()),
            Err(_) => self.failed = true,
        }
    }

    /// Adds a name, and `?` for an id that has none.
    pub fn name(&mut self, name: NameId) {
        self.blank();
        let names = self.names;
        if name.number() < names.count() {
            self.push(names.text_of(name));
        } else {
            self.push(b"?");
        }
    }

    /// The text; an error says that memory ran out on the way.
    pub fn finish(self) -> Result<Vec<u8>, NoMemory> {
        if self.failed {
            return Err(NoMemory);
        }
        Ok(self.text)
    }
}
