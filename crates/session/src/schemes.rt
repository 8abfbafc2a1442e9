// The schemes that a command can choose.
use plain::Plain;
use system::System;

// A scheme that was chosen: plain residues, a residue system, or the split over plain residues.
// Kept: an enum, since the project's rule lets no function hand out a dyn, and each scheme has hidden numbers of its own type.
#[derive(Clone, Copy)]
pub enum Chosen {
    Plain(Plain),
    System(System),
    Split(Plain),
}
