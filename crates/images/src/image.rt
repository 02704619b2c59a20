// The image of a machine's table, with the layout that says where each byte stands.
ghost use Rattle.std.specs.Prelude.{◌≡◌, length, IfOk, IfErr};
ghost use Rattle.tables.specs.Slots.{slot_automaton};
ghost use Rattle.build.specs.Imaging.{Built};
ghost use Rattle.build.specs.Building.{Answers};

use crate::fault::Fault;
use build::{Unbuilt, build_cleared};
use machine::Machine;
use machines::SlotTable;
use slots::Layout;
use std::alloc::Global;
use std::io;

// Builds the table in these cells, with memory for the codes and classes of as many states as a table may have.
pub fn build_in<M: Machine>(machine: &M, most: usize, cells: &mut [u8]) -> Result<u8, Unbuilt>
    ensures answer { Answers (M.Machine.meaning machine.now) most 32 64 cells.old cells.new result }
    ensures built { IfOk result (λ k. Built (M.Machine.meaning machine.now) most k cells.new) }
{
    let mut codes = [0u64; Layout::MOST_STATES];
    let mut classes = [0u8; 2 * Layout::MOST_STATES];
    build_cleared(machine, most, &mut codes, cells, &mut classes)
}

#[derive(Drop)]
pub struct Image {
    pub layout: Layout,
    pub states: u8,
    pub cells: Vec<u8>,
}

impl Image {
    ghost use Rattle.images.specs.Built.{IsImage, Told};

    // The image of the machine's table, with room for `most` states.
    pub fn build<M: Machine>(alloc: Global, machine: &M, most: usize) -> Result<Image, Fault>
        ensures built { IfOk result (IsImage (M.Machine.meaning machine.now) most) }
        ensures told { IfErr result (Told (M.Machine.meaning machine.now) most) }
    {
        // each fault is made by name, as a derived `From` does not say which it gives
        let Some(layout) = Layout::new(machine.shape(), most) else {
            return Err(Fault::Unbuilt(Unbuilt::Unserved));
        };
        let mut cells = vec![in alloc; 0u8; layout.width()].map_err(|fault| Fault::Io(
            io::Error::from(fault),
        ))?;
        let states = build_in(machine, most, cells.as_mut_slice()).map_err(Fault::Unbuilt)?;
        Ok(Image {
            layout,
            states,
            cells,
        })
    }

    // The image read as a machine.
    pub fn table(&self) -> SlotTable<'_>
        ensures { slot_automaton result.shape result.most result.bytes.now ≡ slot_automaton self.now.layout.shape self.now.layout.most self.now.cells.items }
    {
        SlotTable::new(self.cells.as_slice(), self.layout.shape, self.layout.most)
    }
}
