// The spectrum: the amplitudes of the harmonics, and their bars.
use crate::example::SIZE;
use anyhow::Context;
use report::Decimal;
use states::Line;

// The size of a line as a complex number, rounded down to a whole number.
fn magnitude(line: &Line) -> u128 {
    let re = u128::from(line.re.unsigned_abs());
    let im = u128::from(line.im.unsigned_abs());
    (re * re + im * im).isqrt()
}

// The amplitude of the harmonic, where the line is read with this scale: twice the line over the samples.
pub(crate) fn amplitude(line: &Line, scale: u128) -> anyhow::Result<Decimal> {
    let size = i64::try_from(magnitude(line))?;
    scale
        .checked_mul(u128::from(SIZE / 2))
        .and_then(|scale| Decimal::ratio(size, scale))
        .context("a scale that is 0 or has no room")
}

// The amplitude of a line and its bar, at most 50 wide.
fn print_bar(rt: &impl Print, line: &Line) -> anyhow::Result<()> {
    let index = line.index;
    let amplitude = amplitude(line, line.scale)?;
    let length = usize::try_from(amplitude.hundredths / 1000)?.min(50);
    println!(rt; "{index:>4} {amplitude:>10} |{:#<length$}", "")?;
    Ok(())
}

// The spectrum of the lines.
pub(crate) fn print_spectrum(rt: &impl Print, lines: &[Line]) -> anyhow::Result<()> {
    println!(rt; "\nThe spectrum: amplitudes, one # for every 10\n")?;
    for line in lines {
        print_bar(rt, line)?;
    }
    Ok(())
}
