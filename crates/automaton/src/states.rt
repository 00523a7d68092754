// State numbers. Those of the reference and those of the candidate are never used for one another, so each kind is a
// type of its own.

// A state of the reference: u, v, w; primed in the source.
#[derive(Clone, Copy)]
pub struct ReferenceState(pub usize);

// A state of the candidate: q, p, t; unprimed in the source.
#[derive(Clone, Copy)]
pub struct CandidateState(pub usize);
