// The input of a program: the words of its command line, and the bytes of its files one after the other, or of standard input.
use super::kinds::{Ended, Program};
use documents::map::read_map;
use maps::buf::RoadMapBuf;
use std::io::Read;
use std::{env, fs};

impl Program<'_> {
    /// The words of the command line, without the program's own name.
    pub fn words(self) -> Result<Vec<String>, Ended> {
        env::args(self.rt)
            .map_err(|_| self.complain("the command line can't be read"))?
            .skip(1)
            .collect(self.rt.alloc())
            .map_err(|_| self.no_memory())
    }

    fn add_standard_input(self, bytes: &mut Vec<u8>) -> Result<(), Ended> {
        self.rt
            .stdin()
            .read_to_end(bytes)
            .map_err(|_| self.complain("standard input can't be read"))?;
        Ok(())
    }

    fn add_file(self, name: &str, bytes: &mut Vec<u8>) -> Result<(), Ended> {
        let more = fs::read(self.rt, name).map_err(|_| self.complain(format_args!(
            "{name}: can't be read"
        )))?;
        bytes.extend_from_slice(&more).map_err(|_| self.no_memory())
    }

    fn unknown_option(self, word: &str) -> Ended {
        self.complain(format_args!(
            "{word}: unknown option; it takes names of files, or - for standard input"
        ))
    }

    fn add_word(self, word: &str, bytes: &mut Vec<u8>) -> Result<(), Ended> {
        if word == "-" {
            self.add_standard_input(bytes)
        } else if word.starts_with('-') {
            Err(self.unknown_option(word))
        } else {
            self.add_file(word, bytes)
        }
    }

    /// The bytes of the files that `words` names, one after the other; `-` is standard input, and so is no word at all.
    pub fn input(self, words: &[String]) -> Result<Vec<u8>, Ended> {
        let mut bytes = Vec::new(self.rt.alloc());
        if words.is_empty() {
            self.add_standard_input(&mut bytes)?;
        }
        for word in words {
            self.add_word(word.as_str(), &mut bytes)?;
        }
        Ok(bytes)
    }

    /// The map that is the whole of that input.
    pub fn map(self, words: &[String]) -> Result<RoadMapBuf, Ended> {
        let bytes = self.input(words)?;
        read_map(self.rt.alloc(), &bytes).map_err(|stop| self.complain(stop))
    }
}
