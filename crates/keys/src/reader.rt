// 01: "The file reader keeps the lent file and a place in it, and takes one field at a time".
ghost use Rattle.std.specs.Prelude.{◌≡◌, ◌+◌, ◌≤◌, length, IfOk};
ghost use Rattle.keys.specs.Reader.{reader_of, mark_at, field_at, part_at};

use crate::key_file;
use buffers::{compare, numbers};
use store::status::Refusal;

#[derive(Clone, Copy)]
pub struct KeyFileReader<'a> {
    pub file: &'a [u8],
    pub pos: usize,
}

// A step answers what it took, and stands behind it; where it refuses, the reader stays as it was.
impl<'a> KeyFileReader<'a> {
    pub fn new(file: &'a [u8]) -> KeyFileReader<'a>
        ensures { result ≡ reader_of file.entry }
    {
        KeyFileReader { file, pos: 0 }
    }

    // The next n bytes. Subtracted and not added: a place near the largest number must not wrap.
    fn part(&self, n: usize) -> Result<&'a [u8], Refusal>
        ensures answer { result ≡ (part_at self.now n).answer }
        ensures room { IfOk result (λ x. (self.now.pos + n ≤ length self.now.file.now) × (length x.now ≡ n)) }
    {
        let file = self.file;
        if file.len() < self.pos || file.len() - self.pos < n {
            return Err(Refusal::InvalidKeyFile);
        }
        Ok(&file[self.pos..self.pos + n])
    }

    pub fn take_mark(&mut self) -> Result<(), Refusal>
        ensures { record { answer = result; after = self.new } ≡ mark_at self.old }
    {
        let mark = self.part(8)?;
        if !compare::bytes_equal(mark, &key_file::KEY_FILE_MARK) {
            return Err(Refusal::InvalidKeyFile);
        }
        self.pos += 8;
        Ok(())
    }

    pub fn take_field(&mut self) -> Result<u32, Refusal>
        ensures { record { answer = result; after = self.new } ≡ field_at self.old }
    {
        let field = self.part(4)?;
        self.pos += 4;
        Ok(numbers::le_at(field, 0, 4))
    }

    // The material as part of the lent file.
    pub fn take_material(&mut self, n: usize) -> Result<&'a [u8], Refusal>
        ensures { record { answer = result; after = self.new } ≡ part_at self.old n }
    {
        let material = self.part(n)?;
        self.pos += n;
        Ok(material)
    }
}
