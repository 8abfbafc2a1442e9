// The lines of the input, and the commands that they spell.
ghost use Rattle.std.specs.Prelude.{◌≡◌, IfOk};
ghost use Rattle.command.specs.Lines.{without_feed, DecodesAll, OneSplit};

use crate::decoding::decode;
use crate::kinds::Command;
use refusal::Refusal;
use std::alloc::{AllocError, Global};

// The line without its line feed, if it ends in one.
fn bare(line: &[u8]) -> &[u8]
    ensures { result.now ≡ without_feed line.now }
{
    line.strip_suffix(b"\n").unwrap_or(line)
}

// The command of each line of the input, in order, or Garbled where the line spells none.
pub fn decode_all(input: &[u8], heap: Global) -> Result<Vec<Result<Command, Refusal>>, AllocError>
    ensures { IfOk result (λ v. DecodesAll input.now v.items) }
{
    input
        .split_inclusive(|b| *b == b'\n')
        .map(|line| decode(bare(line)))
        .collect(heap)
}

// Input has its lines in one way only.
pub fn input_lines_are_determined()
    ensures { OneSplit }
{}
