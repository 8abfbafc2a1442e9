// The refusals. A call that is refused changes nothing; where several apply, the earlier one of this list answers.
#[derive(Clone, Copy, PartialEq, Eq, Debug)]
pub enum Refusal {
    // plan: the size is not one of the method's
    Size,
    // plan: the sample scale is out of range
    SampleScale,
    // plan: the twiddle scale is out of range
    TwiddleScale,
    // plan: the block has fewer pairs than the size
    Block,
    // plan: twice the bound, plus one, is above the modulus
    Narrow,
    // the state of the window does not allow the call
    Moment,
    // load: not the next place or an earlier one; line: not below the size
    Place,
    // the scheme's modulus is not the one the plan was made for
    Strange,
    // a number is malformed: at which place
    Malformed(usize),
    // begin: fewer samples than the size
    Short,
    // seal: the number is too large for the modulus or for the limit handed along
    Large,
    // seal: the scheme does not take the mask word
    Mask,
    // making a scheme: the moduli break the scheme's rule
    Modulus,
    // console: the line is no command
    Garbled,
    // console: the input is too long
    Long,
}
