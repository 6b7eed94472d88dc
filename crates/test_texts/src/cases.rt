//! Cases of programs that run over data: a file has cases, parted by lines that begin with `==`.

use crate::calls::succeeds;
use std::alloc::{AllocError, Global};
use std::mem;

/// A case, so far as it is read. Where memory is wanting that is noted, so that what reads it has no second way out.
#[derive(Drop)]
pub struct Case<'a> {
    alloc: Global,
    /// What stands behind `==`.
    pub head: &'a str,
    /// What is asked for besides, a word and what stands behind it.
    pub asked: Vec<(&'a str, &'a str)>,
    /// The lines of the case that are in no file.
    pub input: Vec<u8>,
    /// Files, each with its name.
    pub files: Vec<(&'a str, Vec<u8>)>,
    file: Option<&'a str>,
    text: Vec<u8>,
    is_whole: bool,
}

/// The case of a text: its head, and lines that are taken as they are or, behind `=`, as what they ask for.
pub fn read_case<'a>(alloc: Global, text: &'a str) -> Result<Box<Case<'a>>, AllocError> {
    let case = Case::read(alloc, text);
    if case.is_whole {
        Ok(Box::new(alloc, case)?)
    } else {
        drop(case);
        Err(AllocError)
    }
}

impl<'a> Case<'a> {
    fn new(alloc: Global, head: &'a str) -> Self {
        Case {
            alloc,
            head,
            asked: Vec::new(alloc),
            input: Vec::new(alloc),
            files: Vec::new(alloc),
            file: None,
            text: Vec::new(alloc),
            is_whole: true,
        }
    }

    /// The case of a text, as far as there was memory for it.
    pub(crate) fn read(alloc: Global, text: &'a str) -> Self {
        match text.split_once('\n') {
            Some((head, rest)) => {
                let mut case = Case::new(alloc, head);
                case.take_all(rest);
                case
            }
            None => Case::new(alloc, text),
        }
    }

    /// Whether memory was there for all of it.
    pub(crate) fn is_whole(&self) -> bool {
        self.is_whole
    }

    /// What stands behind a word that is asked for, or nothing.
    pub fn behind(&self, word: &str) -> &'a str {
        for &(asked, rest) in self.asked.as_slice() {
            if asked == word {
                return rest;
            }
        }
        ""
    }

    /// Whether a word is asked for.
    pub fn asks(&self, word: &str) -> bool {
        for &(asked, _) in self.asked.as_slice() {
            if asked == word {
                return true;
            }
        }
        false
    }

    fn take_all(&mut self, lines: &'a str) {
        for line in lines.split('\n') {
            self.take(line);
        }
        self.close();
    }

    fn take(&mut self, line: &'a str) {
        match line.strip_prefix('=') {
            Some(order) => {
                let (word, rest) = order.split_once(' ').unwrap_or((order, ""));
                self.obey(word, rest)
            }
            None => {
                self.add(line.as_bytes());
                self.add(b"\n");
            }
        }
    }

    fn add(&mut self, bytes: &[u8]) {
        self.is_whole &= self.text.extend_from_slice(bytes).is_ok();
    }

    /// What a line behind `=` asks for: `cut` takes the last byte away, `byte N` adds one, `repeat` adds a text many times, and `file`
    /// begins a file.
    fn obey(&mut self, word: &'a str, rest: &'a str) {
        match word {
            "cut" => {
                let _ = self.text.pop();
            }
            "byte" => self.add(&[rest.parse::<u8>().unwrap_or(0)]),
            "repeat" => self.repeat(rest),
            "file" => self.begin(rest),
            _ => self.ask(word, rest),
        }
    }

    fn ask(&mut self, word: &'a str, rest: &'a str) {
        self.is_whole &= succeeds(self.asked.push((word, rest)));
    }

    fn begin(&mut self, name: &'a str) {
        self.close();
        self.file = Some(name);
    }

    /// The text so far is that of the file that was begun, or else the input.
    fn close(&mut self) {
        let text = mem::replace(&mut self.text, Vec::new(self.alloc));
        match self.file.take() {
            Some(name) => self.is_whole &= succeeds(self.files.push((name, text))),
            None => self.input = text,
        }
    }

    /// Adds the text behind a number so many times.
    fn repeat(&mut self, rest: &str) {
        let (count, piece) = rest.split_once(' ').unwrap_or(("0", ""));
        for i in 0..count.parse::<u64>().unwrap_or(0) {
            self.add_piece(piece, i);
        }
    }

    /// Adds a text, in which `@` is this number, `#` the next one, and `~` the end of a line.
    fn add_piece(&mut self, piece: &str, i: u64) {
        for &byte in piece.as_bytes() {
            match byte {
                b'@' => self.add_number(i),
                b'#' => self.add_number(i.wrapping_add(1)),
                b'~' => self.add(b"\n"),
                _ => self.add(&[byte]),
            }
        }
    }

    fn add_number(&mut self, i: u64) {
        match i.to_string(self.alloc) {
            Ok(written) => self.add(written.as_bytes()),
            Err(_) => self.is_whole = false,
        }
    }
}
