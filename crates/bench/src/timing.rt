// The build of one table: its states, a checksum of its image, and its time.
use build::Unbuilt;
use images::{Fault, Image, build_in};
use machine::Machine;
use slots::Layout;
use std::io;
use std::time::{Duration, Instant};

fn checksum(bytes: &[u8]) -> u64 {
    bytes.iter().fold(0xcbf2_9ce4_8422_2325, |sum, byte| {
        (sum ^ u64::from(*byte)).wrapping_mul(0x100_0000_01b3)
    })
}

#[derive(Clone, Copy)]
pub struct Bench<'a> {
    pub rt: &'a HostRuntime,
    pub layout: Layout,
    // the program's argument `times`, known as it runs
    pub timed: bool,
}

impl Bench<'_> {
    // A track of the shape.
    pub fn track(self, i: usize) -> usize {
        i % usize::from(self.layout.shape.tracks)
    }

    pub fn image<M: Machine>(self, machine: &M) -> Result<Image, Fault> {
        Image::build(self.rt.alloc(), machine, self.layout.most)
    }

    fn time<M: Machine>(self, machine: &M, cells: &mut [u8]) -> io::Result<Duration> {
        let start = Instant::now(self.rt)?;
        let _ = build_in(machine, self.layout.most, cells);
        start.elapsed(self.rt)
    }

    fn show_time<M: Machine>(self, machine: &M) -> io::Result<()> {
        let mut cells = vec![in self.rt.alloc(); 0u8; self.layout.width()]?;
        let mut best = Duration::MAX;
        for _ in 0..3 {
            best = best.min(self.time(machine, cells.as_mut_slice())?);
        }
        let micros = best.as_micros();
        let whole = micros / 1000;
        let part = micros % 1000;
        print!(self.rt; "{whole:>4}.{part:03} ms  ")
    }

    // A line on the rule, and its image.
    pub fn show_image<M: Machine>(self, name: &str, machine: &M) -> Result<Image, Fault> {
        if self.timed {
            self.show_time(machine)?;
        }
        let image = self.image(machine);
        match &image {
            Ok(image) => {
                let states = image.states;
                let sum = checksum(image.cells.as_slice());
                println!(self.rt; "{name}: {states} states, {sum:016x}")?;
            }
            Err(Fault::Unbuilt(Unbuilt::TooMany)) => println!(self.rt; "{name}: too many")?,
            Err(Fault::Unbuilt(Unbuilt::Unserved)) => println!(self.rt; "{name}: unserved")?,
            Err(_) => {}
        }
        image
    }

    // A line on the rule, whether or not its table is built.
    pub fn show<M: Machine>(self, name: &str, machine: &M) -> Result<(), Fault> {
        where_built(self.show_image(name, machine))?;
        Ok(())
    }
}

// None in the place of a table that is not built: rules over it come to nothing.
pub fn where_built<T>(made: Result<T, Fault>) -> Result<Option<T>, Fault> {
    match made {
        Ok(made) => Ok(Some(made)),
        Err(Fault::Unbuilt(_)) => Ok(None),
        Err(fault) => Err(fault),
    }
}
