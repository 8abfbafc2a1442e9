// One sample on its way from the meter through the houses to the reader.
use crate::cards::MODULUS;
use plain::Plain;
use scheme::{Scheme, open_centred};
use split::{Halves, Split};
use system::{Residues, System};

// One sample from the meter to the reader, under the split: what each house holds, and what opens.
pub(crate) fn print_split_sample(rt: &impl Print, sample: i64, word: u64) -> anyhow::Result<()> {
    let mut scheme = Split::new(Plain::new(MODULUS)?);
    match scheme.seal(sample, word) {
        Ok(sealed) => {
            let Halves { first, second } = sealed;
            let opened = open_centred(&mut scheme, sealed);
            println!(rt; "split, modulus {MODULUS}: {sample} sealed with mask word {word}")?;
            println!(rt; "  the first house holds {first}, the second {second}")?;
            println!(rt; "  the reader opens {opened}")?;
        }
        Err(refusal) => println!(rt;
            "split: {sample} with mask word {word} is refused, {refusal}"
        )?,
    }
    Ok(())
}

// The same sample as three residues.
pub(crate) fn print_system_sample(rt: &impl Print, sample: i64) -> anyhow::Result<()> {
    let mut scheme = System::new(79, 83, 89)?;
    let modulus = scheme.modulus();
    let sealed = scheme.seal(sample, 1)?;
    let opened = open_centred(&mut scheme, sealed);
    let Residues {
        first,
        second,
        third,
    } = sealed;
    println!(rt; "residue system 79, 83, 89, modulus {modulus}: {sample} sealed")?;
    println!(rt; "  the residues are {first}, {second}, {third}")?;
    println!(rt; "  the reader opens {opened}")?;
    Ok(())
}
