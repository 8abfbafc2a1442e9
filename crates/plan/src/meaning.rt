// Working out the figures of a plan, and the moduli that it fits.
ghost use Rattle.std.specs.Prelude.{◌≡◌, ◌*◌, ◌/◌};
ghost use Rattle.plan.specs.Methods.{base, rounding};
ghost use Rattle.plan.specs.Making.{meaning_of, Inner};
ghost use Rattle.plan.specs.Meaning.{exact, stage, growth, radix, directly, least_modulus_of, Fits, Representable};

use super::figures::Figures;
use super::method::Method;
use super::plan::Plan;
use circle::spread;
use refusal::Refusal;

impl Plan {
    // What the samples' components come to at most, all together.
    fn load(self) -> u128
        ensures { result ≡ self.size * self.sample_scale }
    {
        self.size as u128 * u128::from(self.sample_scale)
    }

    // Up to size 4 a radix line is exact.
    fn exact_figures(self) -> Figures
        ensures { result ≡ exact self.size self.sample_scale }
    {
        Figures {
            scale: 1,
            bound: self.load(),
            distance: 0,
        }
    }

    // A direct line is a sum of one product for each sample.
    fn direct_figures(self) -> Figures
        ensures { result ≡ directly self.size self.sample_scale self.twiddle_scale }
    {
        let load = self.load();
        let bound = load * u128::from(spread(self.twiddle_scale));
        Figures {
            scale: u128::from(self.twiddle_scale),
            bound,
            distance: load,
        }
    }

    // The factor by which a stage raises the bound.
    fn growth(self) -> u128
        ensures { result ≡ growth self.method self.twiddle_scale }
    {
        let scale = u128::from(self.twiddle_scale);
        let spread = u128::from(spread(self.twiddle_scale));
        match self.method {
            Method::Direct | Method::Radix2 => scale + spread,
            Method::Radix4 => scale + 3 * spread,
        }
    }

    // The weight of the rounding of a stage's twiddles.
    fn rounding(self) -> u128
        ensures { result ≡ rounding self.method self.size }
    {
        let size = self.size as u128;
        match self.method {
            Method::Direct | Method::Radix2 => size,
            Method::Radix4 => 5 * size / 4,
        }
    }

    // The plan of the lines that a stage combines; none up to size 4, where no stage rounds.
    fn inner(self) -> Option<Plan>
        ensures { Inner self result }
    {
        if self.size <= 4 {
            return None;
        }
        Some(Plan {
            method: self.method,
            size: self.size / self.method.parts(),
            sample_scale: self.sample_scale,
            twiddle_scale: self.twiddle_scale,
        })
    }

    // The figures of a stage on top of lines with the figures `inner`, those of the size below.
    fn stage_figures(self, inner: Figures) -> Figures
        requires { inner ≡ radix self.method 6 (self.size / base self.method) self.sample_scale self.twiddle_scale }
        ensures { result ≡ stage (growth self.method self.twiddle_scale) (rounding self.method self.size) self.sample_scale self.twiddle_scale inner }
    {
        let growth = self.growth();
        let rounding = inner.scale * self.rounding() * u128::from(self.sample_scale);
        Figures {
            scale: u128::from(self.twiddle_scale) * inner.scale,
            bound: growth * inner.bound,
            distance: growth * inner.distance + rounding,
        }
    }

    // The figures of a radix line, from those of the size below.
    fn radix_figures(self) -> Figures
        ensures { result ≡ radix self.method 6 self.size self.sample_scale self.twiddle_scale }
    {
        match self.inner() {
            None => self.exact_figures(),
            Some(inner) => self.stage_figures(inner.radix_figures()),
        }
    }

    // The scale, the bound and the distance of the plan's lines.
    pub fn figures(&self) -> Figures
        ensures value { result ≡ meaning_of self.now }
        ensures limits { Representable result }
    {
        match self.method {
            Method::Direct => self.direct_figures(),
            Method::Radix2 | Method::Radix4 => self.radix_figures(),
        }
    }

    // The smallest modulus that the plan fits: every component of a line then lies in the
    // modulus's signed range.
    pub fn least_modulus(&self) -> u128
        ensures { result ≡ least_modulus_of (meaning_of self.now) }
    {
        2 * self.figures().bound + 1
    }

    // Whether the plan fits the modulus; narrow where it does not.
    pub fn fits(&self, modulus: u64) -> Result<(), Refusal>
        ensures { Fits (meaning_of self.now) modulus result }
    {
        if self.least_modulus() <= u128::from(modulus) {
            Ok(())
        } else {
            Err(Refusal::Narrow)
        }
    }
}
