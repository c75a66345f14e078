// The listing, the stamps, and what `teller::tell` tells, where a read or a write fails in mid-stream. Tests alone.
#![tactic(auto)]

ghost use Rattle.std.specs.Prelude.{◌≤◌, length};

#[cfg(test)]
mod tests {
    use lister::Listing;
    use std::cell::Cell;
    use std::fmt::Display;
    use std::io;
    use std::io::{ErrorKind, Read};
    use teller::Teller;
    use window::Mode;

    // A frame of class 01 and id 21 with no payload, behind a byte of noise.
    const FRAME: [u8; 9] = [0xFF, 0xB5, 0x62, 0x01, 0x21, 0x00, 0x00, 0x22, 0x67];

    // Gives the frame so many times, and then fails.
    #[derive(Drop)]
    struct Source {
        left: u32,
    }

    impl Read for Source {
        fn read(&mut self, buf: &mut [u8]) -> io::Result<usize> {
            if self.left == 0 || buf.len() < FRAME.len() {
                return Err(io::Error::from(ErrorKind::TimedOut));
            }
            self.left -= 1;
            buf[..FRAME.len()].copy_from_slice(&FRAME);
            Ok(FRAME.len())
        }
    }

    // Takes one text, and fails at any other; counts the writes that it was asked for, those that it took, and what it was told.
    #[derive(Drop)]
    struct Sink {
        takes: &'static str,
        asked: Cell<u32>,
        took: Cell<u32>,
        told: Cell<u32>,
    }

    fn taking(takes: &'static str) -> Sink {
        Sink {
            takes,
            asked: Cell::new(0),
            took: Cell::new(0),
            told: Cell::new(0),
        }
    }

    fn count(n: &Cell<u32>) {
        n.set(n.get().saturating_add(1));
    }

    impl Print for Sink {
        fn print<D: Display + Drop>(&self, _value: D) -> io::Result<()> {
            Err(io::Error::from(ErrorKind::Unsupported))
        }

        fn println<D: Display + Drop>(&self, _value: D) -> io::Result<()> {
            Err(io::Error::from(ErrorKind::Unsupported))
        }

        fn write_all(&self, bytes: &[u8]) -> io::Result<()> {
            count(&self.asked);
            if bytes != self.takes.as_bytes() {
                return Err(io::Error::from(ErrorKind::StorageFull));
            }
            count(&self.took);
            Ok(())
        }
    }

    impl Eprint for Sink {
        fn eprint<D: Display + Drop>(&self, _value: D) -> io::Result<()> {
            count(&self.told);
            Ok(())
        }

        fn eprintln<D: Display + Drop>(&self, _value: D) -> io::Result<()> {
            count(&self.told);
            Ok(())
        }
    }

    fn list(sink: &Sink, source: &mut Source, out: &mut [u8])
        requires { 84 ≤ length out.old }
    {
        let mut carry = [0u8; 247];
        let mut chunk = [0u8; 64];
        lister::list(
            sink,
            source,
            b"source",
            Mode::One(false),
            240,
            false,
            &mut carry,
            &mut chunk,
            out,
        );
    }

    fn stamps(sink: &Sink, source: &mut Source, out: &mut [u8])
        requires { 218 ≤ length out.old }
    {
        let mut carry = [0u8; 247];
        let mut chunk = [0u8; 64];
        stamper::stamps(
            sink,
            source,
            b"source",
            Mode::One(false),
            240,
            &mut carry,
            &mut chunk,
            out,
        );
    }

    // Any teller will do, also one with no function of its own for a chunk.
    fn tell<T: Teller>(sink: &Sink, source: &mut Source, by: T, out: &mut [u8])
        requires { T.LONGEST ≤ length out.old }
    {
        let mut carry = [0u8; 247];
        let mut chunk = [0u8; 64];
        teller::tell(
            sink,
            source,
            b"source",
            Mode::One(false),
            240,
            by,
            &mut carry,
            &mut chunk,
            out,
        );
    }

    // Lines that were found before a read that fails are written, and so is the last line; the read is told.
    #[test]
    fn a_failed_read(rt: HostRuntime) {
        let mut out = [0u8; 512];
        let listed = taking(
            "mode 1 max 240 carry 247\nat 1 ubx 01 21 len 0\nat 10 ubx 01 21 len 0\nend used 18 kept 0 lost 0\n",
        );
        list(&listed, &mut Source { left: 2 }, &mut out);
        assert_eq!(rt; listed.took.get(), 1);
        assert_eq!(rt; listed.told.get(), 1);
        let stamped = taking(
            "at 1 refused not this message\nat 10 refused not this message\nend stamps 0 back 0 refused 2 other 0 sums 0 used 18 kept 0 lost 0\n",
        );
        stamps(&stamped, &mut Source { left: 2 }, &mut out);
        assert_eq!(rt; stamped.took.get(), 1);
        assert_eq!(rt; stamped.told.get(), 1);
    }

    // After a write that fails nothing is written and nothing is read; the write is told. The buffers are full with the first frame's
    // line.
    #[test]
    fn a_failed_write(rt: HostRuntime) {
        let listed = taking("");
        let mut source = Source { left: 10 };
        list(&listed, &mut source, &mut [0u8; 128]);
        assert_eq!(rt; listed.asked.get(), 1);
        assert_eq!(rt; listed.told.get(), 1);
        assert_eq!(rt; source.left, 9);
        let stamped = taking("");
        let mut source = Source { left: 10 };
        stamps(&stamped, &mut source, &mut [0u8; 240]);
        assert_eq!(rt; stamped.asked.get(), 1);
        assert_eq!(rt; stamped.told.get(), 1);
        assert_eq!(rt; source.left, 9);
    }

    // So it is with any teller: after a read that fails what was found is written, and after a write that fails nothing more.
    #[test]
    fn any_teller(rt: HostRuntime) {
        let told = taking(
            "mode 1 max 240 carry 247\nat 1 ubx 01 21 len 0\nat 10 ubx 01 21 len 0\nend used 18 kept 0 lost 0\n",
        );
        tell(
            &told,
            &mut Source { left: 2 },
            Listing { named: false },
            &mut [0u8; 512],
        );
        assert_eq!(rt; told.took.get(), 1);
        assert_eq!(rt; told.told.get(), 1);
        let told = taking("");
        let mut source = Source { left: 10 };
        tell(
            &told,
            &mut source,
            Listing { named: false },
            &mut [0u8; 128],
        );
        assert_eq!(rt; told.asked.get(), 1);
        assert_eq!(rt; told.told.get(), 1);
        assert_eq!(rt; source.left, 9);
    }
}
