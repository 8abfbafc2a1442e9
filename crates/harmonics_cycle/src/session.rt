// A list of calls on a new window, made by one call of the library: `runs::run`, whose contract carries both laws. Opened lines
// are right, and neither house's numbers tell the samples.
use crate::example::{METHOD, SAMPLE_SCALE, SIZE, STAGES, TWIDDLE_SCALE};
use plan::Method;
use runs::run;
use scheme::Scheme;
use states::{Call, Line};
use std::alloc::{AllocError, Global};
use std::iter;

// What the houses are asked for: a plan of this method and twiddle scale, so many stages, and these lines.
#[derive(Clone, Copy)]
pub(crate) struct Request<'a> {
    pub(crate) method: Method,
    pub(crate) twiddle_scale: u64,
    pub(crate) stages: usize,
    pub(crate) lines: &'a [usize],
}

impl<'a> Request<'a> {
    // The example's plan up to a stage, with no line.
    pub(crate) fn stages(stages: usize) -> Request<'a> {
        Request {
            method: METHOD,
            twiddle_scale: TWIDDLE_SCALE,
            stages,
            lines: &[],
        }
    }

    // These lines of the example's plan.
    pub(crate) fn lines(lines: &'a [usize]) -> Request<'a> {
        Request {
            lines,
            ..Request::stages(STAGES)
        }
    }
}

// The calls of a request: plan, loads, begin, advances, lines.
fn calls_of<N: Copy>(
    heap: Global,
    request: Request<'_>,
    loaded: &[(N, N)],
) -> Result<Vec<Call<N>>, AllocError> {
    let Request {
        method,
        twiddle_scale,
        stages,
        lines,
    } = request;
    let plan = Call::Plan {
        method,
        size: SIZE,
        sample_scale: SAMPLE_SCALE,
        twiddle_scale,
    };
    let loads = loaded
        .iter()
        .enumerate()
        .map(|(n, pair)| Call::Load { n, pair: *pair });
    let advances = (0..stages).map(|_| Call::Advance);
    let lines = lines.iter().map(|k| Call::Line { k: *k });
    iter::once(plan)
        .chain(loads)
        .chain(iter::once(Call::Begin))
        .chain(advances)
        .chain(lines)
        .collect(heap)
}

// A block with room for one cycle.
// Kept: beside new_block of session, which has another size. One for both would be a library function with its contract for one `vec!`: no plainer.
pub(crate) fn empty_block<S: Scheme>(
    heap: Global,
    s: &mut S,
) -> Result<Vec<(S::Number, S::Number)>, AllocError> {
    let zero = s.zero();
    vec![in heap; (zero, zero); SIZE as usize]
}

// What a request leaves: the lines that were opened, and the block.
#[derive(Drop)]
pub(crate) struct Outcome<N> {
    pub(crate) lines: Vec<Line>,
    pub(crate) block: Vec<(N, N)>,
}

// Makes the calls of a request on a new window.
pub(crate) fn transform<S: Scheme>(
    heap: Global,
    s: &mut S,
    request: Request<'_>,
    loaded: &[(S::Number, S::Number)],
) -> Result<Outcome<S::Number>, AllocError> {
    let calls = calls_of(heap, request, loaded)?;
    let mut block = empty_block(heap, s)?;
    let answers = run(s, block.as_mut_slice(), calls.as_slice(), heap)?;
    let lines = answers
        .into_iter()
        .filter_map(|answer| answer.ok().flatten())
        .collect(heap)?;
    Ok(Outcome { lines, block })
}
