// Multiples and differences of hidden numbers, from sums and opposites alone, under every scheme.
ghost use Rattle.std.specs.Prelude.{◌≡◌, true, pos, ◌-ℤ◌, ◌*ℤ◌};
ghost use Rattle.scheme.specs.Meaning.{View};
ghost use Rattle.scheme.specs.Hidden.{Stands, read};

use crate::calls::Scheme;

// size · x, from the top binary digit of size: one sum for each further digit, one more where that digit is 1.
fn repeated<S: Scheme>(s: &mut S, size: u64, x: S::Number) -> S::Number
    ensures value { (S.meaning s.old).wf x ≡ true → (v : View) → Stands (S.meaning s.old) v (pos size *ℤ read (S.meaning s.old) v x) result }
    ensures frame { S.meaning s.new ≡ S.meaning s.old }
{
    match size {
        0 => s.zero(),
        1 => x,
        _ => {
            let above = repeated(s, size / 2, x);
            let twice = s.sum(above, above);
            if size % 2 == 1 {
                s.sum(twice, x)
            } else {
                twice
            }
        }
    }
}

// c · x for any whole number c: the multiple by its size, and its opposite where c is negative.
pub fn multiple<S: Scheme>(s: &mut S, c: i64, x: S::Number) -> S::Number
    ensures value { (S.meaning s.old).wf x ≡ true → (v : View) → Stands (S.meaning s.old) v (c *ℤ read (S.meaning s.old) v x) result }
    ensures frame { S.meaning s.new ≡ S.meaning s.old }
{
    let r = repeated(s, c.unsigned_abs(), x);
    if c < 0 { s.opposite(r) } else { r }
}

// a − b: one opposite and one sum.
pub fn difference<S: Scheme>(s: &mut S, a: S::Number, b: S::Number) -> S::Number
    ensures value { (S.meaning s.old).wf a ≡ true → (S.meaning s.old).wf b ≡ true → (v : View) → Stands (S.meaning s.old) v (read (S.meaning s.old) v a -ℤ read (S.meaning s.old) v b) result }
    ensures frame { S.meaning s.new ≡ S.meaning s.old }
{
    let less = s.opposite(b);
    s.sum(a, less)
}
