//! What is told of cases, and the files that they stand in.

use crate::cases::Case;
use std::alloc::{Alloc, Global};
use std::fmt::Display;
use std::fs::Files;
use std::test::Fail;
use std::{fs, io};

/// A text that grows. Where memory is wanting that is noted, so that what writes it has no second way out.
#[derive(Drop)]
pub struct Told {
    text: String,
    is_whole: bool,
}

impl Told {
    /// Nothing yet.
    pub fn new(alloc: Global) -> Told {
        Told {
            text: String::new(alloc),
            is_whole: true,
        }
    }

    /// Tells a text.
    pub fn say(&mut self, text: &str) {
        self.is_whole &= self.text.push_str(text).is_ok();
    }

    /// What `write!` calls.
    pub fn write_fmt<D: Display + Drop>(&mut self, value: D) {
        self.is_whole &= self.text.write_fmt(value).is_ok();
    }

    /// Tells what another one tells.
    pub fn add(&mut self, other: &Told) {
        self.say(other.text.as_str());
        self.is_whole &= other.is_whole;
    }

    /// What is told so far.
    pub fn as_str(&self) -> &str {
        self.text.as_str()
    }
}

/// A program over cases.
pub trait Tells {
    /// Tells what comes of a case.
    fn tell(&self, alloc: Global, case: &Case<'_>, told: &mut Told);
}

fn tell_case<T: Tells>(alloc: Global, program: &T, written: &str, told: &mut Told) {
    let case = Case::read(alloc, written);
    program.tell(alloc, &case, told);
    told.is_whole &= case.is_whole();
}

/// What comes of the cases of a text.
fn told_of<T: Tells>(alloc: Global, program: &T, text: &str) -> Told {
    let mut told = Told::new(alloc);
    let text = text.strip_suffix('\n').unwrap_or(text);
    for written in text.split("\n==").skip(1) {
        tell_case(alloc, program, written, &mut told);
    }
    told
}

/// What comes of the cases of a file.
fn told_of_file<R: Files + Alloc, T: Tells>(
    rt: &R,
    alloc: Global,
    program: &T,
    file: &str,
) -> io::Result<Told> {
    let text = fs::read_to_string(rt, file)?;
    Ok(told_of(alloc, program, text.as_str()))
}

/// Prints what comes of the cases of these files, in order.
pub fn tell_files<R: Files + Alloc + Print, T: Tells>(
    rt: &R,
    alloc: Global,
    program: &T,
    files: &[&str],
) -> Result<(), Fail> {
    for &file in files {
        let told = told_of_file(rt, alloc, program, file)?;
        let printed = print!(rt; "{}", told.as_str());
        let is_whole = told.is_whole;
        drop(told);
        printed?;
        if !is_whole {
            return Err("want of memory".into());
        }
    }
    Ok(())
}
