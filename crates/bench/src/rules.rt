// The rules whose tables are built.
use crate::timing::{Bench, where_built};
use atoms::{Below, Lab, Left, Right, Sing, Sub};
use images::{Fault, Image};
use layers::{Both, Either, Exists, Not};
use machine::Machine;
use machines::SlotTable;
use std::alloc::AllocError;
use std::io;

impl Bench<'_> {
    pub fn show_all(self) -> Result<(), Fault> {
        self.show_atoms()?;
        where_built(self.show_layers())?;
        where_built(self.show_counts())?;
        self.show_leaves()
    }

    fn show_atoms(self) -> Result<(), Fault> {
        let shape = self.layout.shape;
        self.show("Sub(0,1)", &Sub::new(shape, 0, 1)?)?;
        self.show("Lab(0,1)", &Lab::new(shape, 0, 1)?)?;
        self.show("Sing(0)", &Sing::new(shape, 0)?)?;
        self.show("Left(0,1)", &Left::new(shape, 0, 1)?)?;
        self.show("Right(1,0)", &Right::new(shape, 1, 0)?)?;
        self.show("Below(0,1)", &Below::new(shape, 0, 1)?)?;
        self.show(
            "Both(Sing(0),Sing(1))",
            &Both::new(Sing::new(shape, 0)?, Sing::new(shape, 1)?)?,
        )
    }

    // Rules over tables of many states.
    fn show_layers(self) -> Result<(), Fault> {
        let shape = self.layout.shape;
        let linked = Either::new(
            Left::new(shape, 0, 1)?,
            Below::new(shape, self.track(2), self.track(3))?,
        )?;
        let linked = self.show_image("P = Either(Left(0,1),Below(2,3))", &linked)?;
        let covered = Sub::new(shape, self.track(4), self.track(5))?;
        let wide = self.show_image(
            "Q = Either(P,Sub(4,5))",
            &Either::new(linked.table(), covered)?,
        )?;
        let wide = wide.table();
        self.show("Not(Q)", &Not::new(wide))?;
        self.show("Exists(5,Q)", &Exists::new(wide, self.track(5))?)?;
        self.show("Exists(3,Q)", &Exists::new(wide, self.track(3))?)?;
        self.show("Exists(1,Q)", &Exists::new(wide, 1)?)?;
        self.show(
            "Either(Q,Sing(0))",
            &Either::new(wide, Sing::new(shape, 0)?)?,
        )
    }

    // From at least n nodes in a track to at least one more in another: some node of it is not among those n.
    fn one_more(self, fewer: &Image, track: usize, next: usize) -> Result<Image, Fault> {
        let shape = self.layout.shape;
        let one = self.track(2);
        let member = Both::new(Sing::new(shape, one)?, Sub::new(shape, one, next)?)?;
        let other = Both::new(
            Not::new(Sub::new(shape, one, track)?),
            Sub::new(shape, track, next)?,
        )?;
        let extra = self.image(&Both::new(member, other)?)?;
        let with = self.image(&Both::new(fewer.table(), extra.table())?)?;
        let some = self.image(&Exists::new(with.table(), one)?)?;
        self.image(&Exists::new(some.table(), track)?)
    }

    // At least `nodes` nodes in track 0, by turns over tracks 1 and 0.
    fn at_least(self, nodes: usize) -> Result<Image, Fault> {
        let mut image = self.image(&Sub::new(self.layout.shape, 0, 0)?)?;
        for left in (0..nodes).rev() {
            let next = left % 2;
            image = self.one_more(&image, 1 - next, next)?;
        }
        Ok(image)
    }

    // Rules that count, whose sets of states get large under Some.
    fn show_counts(self) -> Result<(), Fault> {
        let ten = self.at_least(10)?;
        let ten = ten.table();
        self.show("A = at least 10 in 0", &ten)?;
        self.show("Exists(0,A)", &Exists::new(ten, 0)?)?;
        where_built(self.show_fewer(ten))?;
        where_built(self.show_several())?;
        self.show_bounded()
    }

    fn show_fewer(self, ten: SlotTable<'_>) -> Result<(), Fault> {
        let shape = self.layout.shape;
        let covered = Sub::new(shape, self.track(4), 1)?;
        let fewer = self.image(&Both::new(Not::new(ten), covered)?)?;
        self.show_some(
            "B = Either(Lab(0,0),Both(Not(A),Sub(4,1)))",
            "Exists(0,B)",
            &Either::new(Lab::new(shape, 0, 0)?, fewer.table())?,
        )
    }

    fn show_several(self) -> Result<(), Fault> {
        let shape = self.layout.shape;
        let four = self.at_least(4)?;
        let seven = self.at_least(7)?;
        let labelled = Both::new(four.table(), Lab::new(shape, self.track(2), 10)?)?;
        let several = Either::new(labelled, seven.table())?;
        self.show_some(
            "C = Either(Sub(2,0),Either(Both(at least 4 in 0,Lab(2,10)),at least 7 in 0))",
            "Exists(0,C)",
            &Either::new(Sub::new(shape, self.track(2), 0)?, several)?,
        )
    }

    fn show_bounded(self) -> Result<(), Fault> {
        let shape = self.layout.shape;
        let other = self.track(2);
        let six = self.at_least(6)?;
        let eight = self.at_least(8)?;
        let many = self.image(&Either::new(eight.table(), Sub::new(shape, other, 0)?)?)?;
        let few = Either::new(Sub::new(shape, 0, other)?, Not::new(many.table()))?;
        let few = self.image(&few)?;
        let between = self.image(&Both::new(six.table(), few.table())?)?;
        self.show_some(
            "D = Either(Right(2,0),Both(at least 6 in 0,Either(Sub(0,2),Not(Either(at least 8 in 0,Sub(2,0))))))",
            "Exists(0,D)",
            &Either::new(Right::new(shape, other, 0)?, between.table())?,
        )
    }

    // A rule, and some set of nodes that makes it hold.
    fn show_some<M: Machine>(self, name: &str, over: &str, machine: &M) -> Result<(), Fault> {
        let image = self.show_image(name, machine)?;
        self.show(over, &Exists::new(image.table(), 0)?)
    }

    // The image that counts the leaves in track 0 as far as there are states. Under Some its sets are the intervals from 0
    // on, which makes them as large as so many sets can be.
    fn leaves_image(self) -> io::Result<Image> {
        let layout = self.layout;
        // fits, as a layout has 32 states at most
        let states = layout.most as u8;
        let last = states - 1;
        let mut cells = vec![in self.rt.alloc(); states]?;
        cells.extend((0..states).map(|state| u8::from(state == last)))?;
        cells.extend((0..layout.leaf_rows()).map(|row| u8::from(row % 2 == 1)))?;
        for _ in 0..layout.inner_rows() {
            put_sums(&mut cells, last)?;
        }
        Ok(Image {
            layout,
            states,
            cells,
        })
    }

    fn show_leaves(self) -> Result<(), Fault> {
        let image = self.leaves_image()?;
        let leaves = image.table();
        self.show("L = as many leaves in 0 as can be counted", &leaves)?;
        self.show("Exists(0,L)", &Exists::new(leaves, 0)?)
    }
}

// The states that parts of so many leaves in track 0 make, for each pair of counts.
fn put_sums(cells: &mut Vec<u8>, last: u8) -> Result<(), AllocError> {
    for left in 0..=last {
        cells.extend((0..=last).map(|right| left.saturating_add(right).min(last)))?;
    }
    Ok(())
}
