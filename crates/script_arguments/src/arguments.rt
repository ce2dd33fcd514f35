// The words behind a command, read one after the other.
ghost use Rattle.std.specs.Prelude.{◌≤◌, length};

use script_bytes::read_bytes;
use script_words::command::{Area, Entry, Given, Object};
use script_words::number::read_number;
use script_words::word::until;

// What is left of a line behind a word: a space and the next word, and so on.
#[derive(Drop)]
pub(crate) struct Arguments<'a> {
    rest: &'a [u8],
}

impl<'a> Arguments<'a> {
    pub(crate) fn new(rest: &'a [u8]) -> Arguments<'a> {
        Arguments { rest }
    }

    // The next word.
    fn word(&mut self) -> Option<&'a [u8]> {
        let [_, rest @ ..] = self.rest else {
            return None;
        };
        let end = until(rest, b' ');
        self.rest = &rest[end..];
        Some(&rest[..end])
    }

    pub(crate) fn number(&mut self) -> Option<u64> {
        read_number(self.word()?)
    }

    // An area by its letter.
    pub(crate) fn area(&mut self) -> Option<Area> {
        match self.word()? {
            b"s" => Some(Area::Server),
            b"v" => Some(Area::View),
            b"l" => Some(Area::Log),
            _ => None,
        }
    }

    // Some bytes, into a buffer: how many they are.
    pub(crate) fn bytes(&mut self, out: &mut [u8]) -> Option<usize>
        requires { 2048 ≤ length out.old }
    {
        read_bytes(self.word()?, out)
    }

    // The numbers passed in every call.
    pub(crate) fn given(&mut self) -> Option<Given> {
        Some(Given {
            n: self.number()?,
            b: self.number()?,
            m: self.number()?,
        })
    }

    pub(crate) fn object(&mut self) -> Option<Object> {
        Some(Object {
            program: self.number()?,
            number: self.number()?,
        })
    }

    // A program, a directory and a name, which is put into a buffer.
    pub(crate) fn entry(&mut self, out: &mut [u8]) -> Option<Entry>
        requires { 2048 ≤ length out.old }
    {
        Some(Entry {
            program: self.number()?,
            parent: self.number()?,
            name: self.bytes(out)?,
        })
    }

    // Nothing, if no word is left.
    pub(crate) fn end(&self) -> Option<()> {
        self.rest.is_empty().then_some(())
    }
}
