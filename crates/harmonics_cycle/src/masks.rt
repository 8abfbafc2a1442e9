// What a house cannot tell: for any other samples there are mask words under which it would hold the same.
use crate::cycle::Cycle;
use crate::example::SAMPLE_SCALE;
use crate::meter::{SHARE_COLUMNS, print_sample};
use integers::Complex;
use scheme::{modulus_of, pairs};
use secrecy::{House, masks_for};

// Another curve: a flat one.
const FLAT: Complex = Complex { re: 400, im: 0 };

impl<'a, P: Print + AllocGlobal> Cycle<'a, P> {
    // The first samples of the flat curve, sealed so that the house holds the same as before.
    fn print_alike(&mut self, house: House) -> anyhow::Result<()> {
        let rt = self.rt;
        let modulus = modulus_of(self.s);
        let masks = masks_for(rt.alloc(), modulus, house, self.sealed, &[FLAT; 3])?;
        for (n, words) in masks.into_iter().enumerate() {
            let pair = pairs::seal(self.s, SAMPLE_SCALE, FLAT, words)?;
            print_sample(rt, n, FLAT.re, pair)?;
        }
        Ok(())
    }

    // The flat curve as either house would hold it.
    pub(crate) fn print_masks(&mut self) -> anyhow::Result<()> {
        let rt = self.rt;
        println!(rt; "\nWhat a house cannot tell: that the current is not a flat 400\n")?;
        println!(rt; "sample   value   {SHARE_COLUMNS}")?;
        println!(rt; "sealed so that the first house holds what it holds of the current:")?;
        self.print_alike(House::First)?;
        println!(rt; "sealed so that the second house does:")?;
        self.print_alike(House::Second)
    }
}
