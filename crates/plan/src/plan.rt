// The plan: every value of the type is lawful.
ghost use Rattle.std.specs.Prelude.{◌≡◌, ◌≤◌, true};
ghost use Rattle.plan.specs.Methods.{sized};

use super::method::Method;

// A method, a size, a sample scale (the largest size of a sample's component) and a
// twiddle scale (what stands for 1 in a twiddle).
#[derive(Clone, Copy)]
pub struct Plan {
    pub(crate) method: Method,
    pub(crate) size: usize,
    pub(crate) sample_scale: u32,
    pub(crate) twiddle_scale: u32,
    ghost size_lawful: { sized method size ≡ true },
    ghost sample_positive: { 1 ≤ sample_scale },
    ghost sample_limited: { sample_scale ≤ 32767 },
    ghost twiddle_positive: { 1 ≤ twiddle_scale },
    ghost twiddle_limited: { twiddle_scale ≤ 32768 },
}
