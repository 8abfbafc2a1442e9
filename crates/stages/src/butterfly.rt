// The factors and the butterflies of a stage, in place on hidden pairs.
ghost use Rattle.std.specs.Prelude.{◌≡◌, ◌+◌, ◌-◌, ◌*◌, ◌<◌, ◌≤◌, length};
ghost use Rattle.integers.specs.Complex.{◌⊗◌};
ghost use Rattle.integers.specs.declared.Complex.{Complex as Value};
ghost use Rattle.scheme.specs.Meaning.{View};
ghost use Rattle.scheme.specs.Hidden.{StandsPair};
ghost use Rattle.lines.specs.Lines.{weight, butterfly as butterfly_of};
ghost use Rattle.stages.specs.Mixing.{Replaced};
ghost use Rattle.stages.specs.Stage.{CrossedAt};

use circle::twiddle;
use scheme::{Scheme, pairs};

// A scheme with the butterfly of radix R: each of R pairs becomes the sum of all of them, turned by powers of −j.
pub(crate) trait Radix<const R: usize>: Scheme {
    // The butterfly in place, on the pairs at first, first + span, .., first + (R − 1)·span.
    // Kept: tried with an array of R pairs, and the proof didn't close: an impl for every scheme takes an array of 2 or of 4 of its pairs,
    // and that signature is not fitted to the trait's, of R pairs.
    fn butterfly(&mut self, first: usize, span: usize, block: &mut [(Self::Number, Self::Number)])
        requires apart { 0 < span }
        requires within { first + (R - 1) * span < length block.old }
        ensures made { Replaced (Self.meaning self.old) R first span (butterfly_of R) block.old block.new }
        ensures frame { Self.meaning self.new ≡ Self.meaning self.old };
}

// Radix 2: one sum and one difference.
impl<S: Scheme> Radix<2> for S {
    fn butterfly(&mut self, first: usize, span: usize, block: &mut [(S::Number, S::Number)])
        requires apart { 0 < span }
        requires within { first + (2 - 1) * span < length block.old }
        ensures made { Replaced (S.meaning self.old) 2 first span (butterfly_of 2) block.old block.new }
        ensures frame { S.meaning self.new ≡ S.meaning self.old }
    {
        let second = first + span;
        let (a, b) = (block[first], block[second]);
        block[first] = pairs::sum(self, a, b);
        block[second] = pairs::difference(self, a, b);
    }
}

// Radix 4: four sums, four differences and one factor −j.
impl<S: Scheme> Radix<4> for S {
    fn butterfly(&mut self, first: usize, span: usize, block: &mut [(S::Number, S::Number)])
        requires apart { 0 < span }
        requires within { first + (4 - 1) * span < length block.old }
        ensures made { Replaced (S.meaning self.old) 4 first span (butterfly_of 4) block.old block.new }
        ensures frame { S.meaning self.new ≡ S.meaning self.old }
    {
        let second = first + span;
        let third = second + span;
        let fourth = third + span;
        let (a, b, c, d) = (block[first], block[second], block[third], block[fourth]);
        let even = pairs::sum(self, a, c);
        let odd = pairs::sum(self, b, d);
        let even_less = pairs::difference(self, a, c);
        let odd_less = pairs::difference(self, b, d);
        let turned = pairs::turn(self, odd_less);
        block[first] = pairs::sum(self, even, odd);
        block[second] = pairs::sum(self, even_less, turned);
        block[third] = pairs::difference(self, even, odd);
        block[fourth] = pairs::difference(self, even_less, turned);
    }
}

// One butterfly of a stage: lines k of the R parts of a group, each of size `span`, come together.
#[derive(Clone, Copy)]
pub(crate) struct Butterfly<const R: usize> {
    pub(crate) scale: u32,
    pub(crate) span: usize,
    pub(crate) group: usize,
    pub(crate) k: usize,
    ghost below: { k < span },
    ghost small: { group * (R * span) + R * span ≤ 256 },
}

impl<const R: usize> Butterfly<R> {
    // Part i times its factor: up to size 4 exactly 1 or −j; above, the scale for part 0 and a twiddle for the others.
    fn weighted<S: Scheme>(
        self,
        s: &mut S,
        i: usize,
        x: (S::Number, S::Number),
    ) -> (S::Number, S::Number)
        requires { i < R }
        ensures value { (v : View) (z : Value) → StandsPair (S.meaning s.old) v z x → StandsPair (S.meaning s.old) v (weight self.entry.scale (R * self.entry.span) i self.entry.k ⊗ z) result }
        ensures frame { S.meaning s.new ≡ S.meaning s.old }
    {
        let size = R * self.span;
        if size <= 4 {
            if i * self.k * (4 / size) == 1 {
                pairs::turn(s, x)
            } else {
                x
            }
        } else if i == 0 {
            pairs::multiple(s, i64::from(self.scale), x)
        } else {
            let factor = twiddle(i * self.k * (256 / size), self.scale);
            pairs::product(s, factor, x)
        }
    }

    // The butterfly in place: each part times its factor, then all of them together.
    pub(crate) fn cross<S: Radix<R>>(self, s: &mut S, block: &mut [(S::Number, S::Number)])
        requires some { 0 < R }
        requires within { self.group * (R * self.span) + R * self.span ≤ length block.old }
        ensures crossed { CrossedAt (S.meaning s.old) self.entry.scale R self.entry.span self.entry.group self.entry.k block.old block.new }
        ensures frame { S.meaning s.new ≡ S.meaning s.old }
    {
        let first = self.group * (R * self.span) + self.k;
        // Kept: tried with iter_mut().step_by(span), and the proof didn't close, since after it no pair of the block is known.
        for i in 0..R {
            let place = first + i * self.span;
            block[place] = self.weighted(s, i, block[place]);
        }
        s.butterfly(first, self.span, block);
    }
}
