// The text of a plan and of its figures.
ghost use Rattle.std.specs.Prelude.{Some};
ghost use Rattle.plan.specs.Text.{figures_text, plan_text};

use super::figures::Figures;
use super::plan::Plan;
use std::fmt;

// The plan's four numbers: 'radix 2, size 16, sample scale 100, twiddle scale 10'.
impl fmt::Display for Plan {
    ghost output = { λ p. Some (plan_text p) };

    fn fmt<W: fmt::Write>(&self, f: &mut fmt::Formatter<W>) -> fmt::Result {
        let Plan {
            method,
            size,
            sample_scale: sample,
            twiddle_scale: twiddle,
        } = *self;
        write!(
            f,
            "{method}, size {size}, sample scale {sample}, twiddle scale {twiddle}"
        )
    }
}

// 'scale 100, bound 270400, distance 36800'.
impl fmt::Display for Figures {
    ghost output = { λ x. Some (figures_text x) };

    fn fmt<W: fmt::Write>(&self, f: &mut fmt::Formatter<W>) -> fmt::Result {
        let Figures {
            scale,
            bound,
            distance,
        } = *self;
        write!(f, "scale {scale}, bound {bound}, distance {distance}")
    }
}
