// Standard output, and messages on standard error. What standard error does not take is lost.
use crate::{Failed, Program};
use std::io;
use std::io::Print;

impl Program<'_> {
    // Writes a part of a message on standard error.
    fn say(&self, words: &[u8]) {
        let _ = self.errors.write_all(words);
    }

    // The error's words, without the number that the library puts behind those of the system.
    fn say_reason(&self, error: io::Error) {
        match format!(in self.memory; "{error}") {
            Ok(text) => match text.as_str().split_once(" (os error ") {
                Some((words, _)) => self.say(words.as_bytes()),
                None => self.say(text.as_bytes()),
            },
            Err(_) => {
                let _ = self.errors.print(error);
            }
        }
    }

    // Says what failed, with the system's reason.
    pub fn fail(&self, what: &[u8], error: io::Error) -> Failed {
        self.say(self.name);
        self.say(b": ");
        self.say(what);
        self.say(b": ");
        self.say_reason(error);
        self.say(b"\n");
        Failed
    }

    // Says that the word is no option of the program.
    pub fn unknown(&self, word: &[u8]) -> Failed {
        self.say(self.name);
        self.say(b": unknown option ");
        self.say(word);
        self.say(b"; --help lists the options, and ./NAME is a file\n");
        Failed
    }

    // Writes the bytes to standard output.
    pub fn write(&self, bytes: &[u8]) -> Result<(), Failed> {
        self.output
            .write_all(bytes)
            .map_err(|error| self.fail(b"standard output", error))
    }
}
