// A writer whose flush is left to whoever lends it.
use std::io;

#[derive(Drop)]
pub(crate) struct Unflushed<W> {
    pub(crate) writer: W,
}

impl<W: io::Write> io::Write for Unflushed<W> {
    ghost use Rattle.std.specs.Prelude.{◌≡◌, IsOk};

    ghost contents = { λ w. W.contents w.writer };

    fn write(&mut self, buf: &[u8]) -> io::Result<usize> {
        self.writer.write(buf)
    }

    fn flush(&mut self) -> io::Result<()>
        ensures ok { IsOk result }
        ensures unchanged { self.new ≡ self.old }
    {
        Ok(())
    }

    fn write_all(&mut self, buf: &[u8]) -> io::Result<()> {
        self.writer.write_all(buf)
    }
}
