// From a line to the command that it spells.
ghost use Rattle.std.specs.Prelude.{◌≡◌, Some, None};
ghost use Rattle.std.specs.Option.{option_map};
ghost use Rattle.command.specs.Decoding.{fields_of, method_by_letter, alone_of, system_of, choice_of, plan_of, load_of, line_of, command_of};
ghost use Rattle.command.specs.Spelling.{Decodes, SpelledOnce};

use crate::fields::{FromField, cut, value_then};
use crate::kinds::{Choice, Command};
use integers::Complex;
use plan::Method;
use refusal::Refusal;

// The first field, and what follows its comma, where there is one.
fn first_field(line: &[u8]) -> (&[u8], Option<&[u8]>)
    ensures { (result.0.now, option_map (λ x. x.now) result.1) ≡ fields_of line.now }
{
    cut(line, b',').map_or((line, None), |(first, rest)| (first, Some(rest)))
}

// A method, by its letter.
impl FromField for Method {
    ghost value_of = { method_by_letter };

    fn from_field(field: &[u8]) -> Option<Method> {
        match char::from_field(field)? {
            'd' => Some(Method::Direct),
            '2' => Some(Method::Radix2),
            '4' => Some(Method::Radix4),
            _ => None,
        }
    }
}

// A command of one field only.
fn alone(command: Command, rest: Option<&[u8]>) -> Option<Command>
    ensures { result ≡ alone_of command (option_map (λ x. x.now) rest.entry) }
{
    rest.is_none().then_some(command)
}

// Three moduli.
#[tactic(auto, unfolding(crate::specs::Decoding::system_of, crate::specs::Fields::number_and_rest))]
fn read_system(text: &[u8]) -> Option<Command>
    ensures { result ≡ system_of text.now }
{
    let (first, text) = value_then(text)?;
    let (second, text) = value_then(text)?;
    let third = u64::from_field(text)?;
    Some(Command::Choose(Choice::System {
        first,
        second,
        third,
    }))
}

// The letter of a scheme and its moduli.
#[tactic(auto, unfolding(crate::specs::Decoding::choice_of, crate::specs::Fields::letter_and_rest, crate::specs::Decoding::choice_by))]
fn read_choice(text: &[u8]) -> Option<Command>
    ensures { result ≡ choice_of text.now }
{
    let (kind, text) = value_then(text)?;
    match kind {
        'r' => u64::from_field(text).map(|modulus| Command::Choose(Choice::Plain { modulus })),
        'y' => read_system(text),
        'p' => u64::from_field(text).map(|modulus| Command::Choose(Choice::Split { modulus })),
        _ => None,
    }
}

// The letter of a method, the size and the two scales.
#[tactic(auto, unfolding(crate::specs::Decoding::plan_of, crate::specs::Decoding::method_and_rest, crate::specs::Fields::number_and_rest))]
fn read_plan(text: &[u8]) -> Option<Command>
    ensures { result ≡ plan_of text.now }
{
    let (method, text) = value_then(text)?;
    let (size, text) = value_then(text)?;
    let (sample_scale, text) = value_then(text)?;
    let twiddle_scale = u64::from_field(text)?;
    Some(Command::Plan {
        method,
        size,
        sample_scale,
        twiddle_scale,
    })
}

// The number of the sample, its two components and two mask words.
#[tactic(auto, unfolding(crate::specs::Decoding::load_of, crate::specs::Fields::number_and_rest, crate::specs::Fields::whole_and_rest))]
fn read_load(text: &[u8]) -> Option<Command>
    ensures { result ≡ load_of text.now }
{
    let (n, text) = value_then::<u64>(text)?;
    let (re, text) = value_then(text)?;
    let (im, text) = value_then(text)?;
    let (first, text) = value_then(text)?;
    let second = u64::from_field(text)?;
    // Kept: `as`, since no From leads from u64 to usize. A try_from is no plainer: it would answer an error that cannot come.
    Some(Command::Load {
        n: n as usize,
        sample: Complex { re, im },
        words: (first, second),
    })
}

// The number of a line.
fn read_line(text: &[u8]) -> Option<Command>
    ensures { result ≡ line_of text.now }
{
    // Kept: `as`, as for the number of a sample.
    u64::from_field(text).map(|k| Command::Line { k: k as usize })
}

// The command by the letter of its first field.
#[tactic(auto, unfolding(crate::specs::Decoding::command_of, crate::specs::Decoding::command_by))]
fn read_command(text: &[u8]) -> Option<Command>
    ensures { result ≡ command_of text.now }
{
    let (first, rest) = first_field(text);
    match char::from_field(first)? {
        's' => read_choice(rest?),
        'p' => read_plan(rest?),
        'l' => read_load(rest?),
        'b' => alone(Command::Begin, rest),
        'a' => alone(Command::Advance, rest),
        'g' => read_line(rest?),
        'r' => alone(Command::Restart, rest),
        _ => None,
    }
}

// The command that a line spells, or Garbled where it spells none.
pub fn decode(text: &[u8]) -> Result<Command, Refusal>
    ensures { Decodes text.now result }
{
    read_command(text).ok_or(Refusal::Garbled)
}

// A line spells one command at most.
pub fn commands_are_spelled_once()
    ensures { SpelledOnce }
{}
