// The commands of the console.
use integers::Complex;
use plan::Method;

// The scheme that a command asks for, with its moduli.
#[derive(Clone, Copy)]
pub enum Choice {
    // plain residues
    Plain { modulus: u64 },
    // a residue system
    System { first: u64, second: u64, third: u64 },
    // the split over plain residues
    Split { modulus: u64 },
}

// What a line of the console asks for.
// Kept: six variants have the names of those of `states::Call`. One type for both is no plainer: a load carries a sample and mask words
// here and a sealed pair there, and a command has no type of hidden numbers.
#[derive(Clone, Copy)]
pub enum Command {
    // a new window under a scheme
    Choose(Choice),
    // Kept: four numbers as they are typed. A struct of them is no plainer: a second `Plan`, of which nothing holds.
    Plan {
        method: Method,
        size: u64,
        sample_scale: u64,
        twiddle_scale: u64,
    },
    // seal the sample with the mask words, real part first, and load it as sample n
    Load {
        n: usize,
        sample: Complex,
        words: (u64, u64),
    },
    Begin,
    Advance,
    // open line k
    Line {
        k: usize,
    },
    Restart,
}
