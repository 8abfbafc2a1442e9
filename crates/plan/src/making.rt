// Making a plan, and what it was made from.
ghost use Rattle.std.specs.Prelude.{◌≡◌};
ghost use Rattle.plan.specs.Making.{Makes};

use super::method::Method;
use super::plan::Plan;
use refusal::Refusal;

impl Plan {
    // The plan of these numbers, or the earliest refusal that applies: size, sample scale, twiddle scale. Kept: a struct of the four
    // is no plainer: a second Plan of which nothing holds, made by a caller only to be taken apart here.
    pub fn new(
        method: Method,
        size: u64,
        sample_scale: u64,
        twiddle_scale: u64,
    ) -> Result<Plan, Refusal>
        ensures { Makes method size sample_scale twiddle_scale result }
    {
        if !method.allows(size) {
            return Err(Refusal::Size);
        }
        if !(1..=32767).contains(&sample_scale) {
            return Err(Refusal::SampleScale);
        }
        if !(1..=32768).contains(&twiddle_scale) {
            return Err(Refusal::TwiddleScale);
        }
        Ok(Plan {
            method,
            size: size as usize,
            sample_scale: sample_scale as u32,
            twiddle_scale: twiddle_scale as u32,
        })
    }

    pub fn method(&self) -> Method
        ensures { result ≡ self.now.method }
    {
        self.method
    }

    pub fn size(&self) -> usize
        ensures { result ≡ self.now.size }
    {
        self.size
    }

    pub fn sample_scale(&self) -> u32
        ensures { result ≡ self.now.sample_scale }
    {
        self.sample_scale
    }

    pub fn twiddle_scale(&self) -> u32
        ensures { result ≡ self.now.twiddle_scale }
    {
        self.twiddle_scale
    }
}
