// The search for a malformed pair.
ghost use Rattle.std.specs.Prelude.{◌≡◌, ◌<◌, length};
ghost use Rattle.stages.specs.Search.{Found, Tested};

use refusal::Refusal;
use scheme::{Scheme, pairs};

// The first among the first `count` places that holds no well-formed pair; a place past the end of the block holds none. None where
// all of them hold one.
// Kept: a block beside a count. A slice of the places would be no plainer: the count may lie past the end, and the answer is then
// the first place that is not there.
pub fn first_malformed<S: Scheme>(
    s: &mut S,
    block: &[(S::Number, S::Number)],
    count: usize,
) -> Option<usize>
    ensures value { Found (S.meaning s.old) block.now count result }
    ensures frame { S.meaning s.new ≡ S.meaning s.old }
{
    let there = block.len().min(count);
    // Kept: tried with position, and the proof didn't close: after it nothing is known of the scheme, which its closure borrows and tests
    // with.
    for (i, pair) in block[..there].iter().enumerate() {
        if !pairs::test(s, *pair) {
            return Some(i);
        }
    }
    (there < count).then_some(there)
}

// Refuses with Malformed at the first pair of the block that is not well formed.
pub(crate) fn all_well_formed<S: Scheme>(
    s: &mut S,
    block: &[(S::Number, S::Number)],
) -> Result<(), Refusal>
    ensures value { Tested (S.meaning s.old) block.now (length block.now) result }
    ensures frame { S.meaning s.new ≡ S.meaning s.old }
{
    first_malformed(s, block, block.len()).map_or(Ok(()), |place| Err(Refusal::Malformed(place)))
}
