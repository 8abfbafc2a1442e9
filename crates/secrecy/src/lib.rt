// What a house may learn from the numbers that it holds: not the samples.
#![tactic(auto)]

ghost use Rattle.std.specs.Prelude.{◌≡◌, IfOk};
ghost use Rattle.secrecy.specs.Guards.{SecrecySpeaks};
ghost use Rattle.secrecy.specs.Masks.{Serve, side, word, words, words_of};
ghost use Rattle.secrecy.specs.Secrecy.{SecrecyStands};

use integers::{Complex, Modulus};
use split::Halves;
use std::alloc::{AllocError, Global};

// The two houses between which every number of a block is split: each holds one half of it.
#[derive(Clone, Copy)]
pub enum House {
    First,
    Second,
}

// Neither house's numbers tell the samples. Under the split over plain residues, for either house, every list of calls on a new window
// over any block, and any second samples within the sample scale, there are mask words with which the same calls are declined, and
// after every call that house holds the same half of every number of the block.
pub fn houses_learn_no_sample()
    ensures { SecrecyStands }
{}

// The theorem above is not empty: every list of calls has a run over every block, every sample that was sealed under the sample scale
// will do as a second sample, and some runs load samples and open lines.
pub fn secrecy_speaks_of_runs()
    ensures { SecrecySpeaks }
{}

// The mask word under which the house holds the same half of the number z as it holds of x.
pub fn mask_word(n: Modulus, house: House, z: i64, x: Halves<u64>) -> u64
    ensures { result ≡ word n.n (side house) z x }
{
    match house {
        House::First => x.first,
        House::Second => n.sum(n.residue(z), n.opposite(x.second)),
    }
}

// The two mask words under which the house holds the same halves of the sample z as it holds of the pair.
pub fn mask_words(
    n: Modulus,
    house: House,
    z: Complex,
    pair: (Halves<u64>, Halves<u64>),
) -> (u64, u64)
    ensures { result ≡ words n.n (side house) z pair }
{
    let (re, im) = pair;
    (mask_word(n, house, z.re, re), mask_word(n, house, z.im, im))
}

// The mask words for second samples, given the pairs of the accepted loads of a list of calls: sealed with these words, the second
// samples would have shown the house the same.
pub fn masks_for(
    heap: Global,
    n: Modulus,
    house: House,
    pairs: &[(Halves<u64>, Halves<u64>)],
    samples: &[Complex],
) -> Result<Vec<(u64, u64)>, AllocError>
    ensures value { IfOk result (λ v. v.items ≡ words_of n.n (side house) pairs.now samples.now) }
    ensures law { IfOk result (λ v. Serve n.n (side house) pairs.now samples.now v.items) }
{
    pairs
        .iter()
        .zip(samples)
        .map(|(pair, sample)| mask_words(n, house, *sample, *pair))
        .collect(heap)
}
