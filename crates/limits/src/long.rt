// Scripts that are too long to be written out.
use std::alloc::{AllocError, Global};
use std::iter;

const OPENING: &[u8] = b"\ndo=open limit=1 line=2 talk=30 grace=5 rows=10 rule=plain";

// A bad line, and a line that opens a call and ends at the octet `length`, then `more` octets that spoil it.
pub fn padded(heap: Global, length: usize, more: usize) -> Result<Vec<u8>, AllocError> {
    let mut script = vec![in heap; b'x'; length.saturating_sub(OPENING.len())]?;
    script.extend_from_slice(OPENING)?;
    script.extend(iter::repeat_n(b'x', more))?;
    Ok(script)
}

// So many octets, as a linear congruential generator gives them; the last is a line end.
pub fn noise(heap: Global, seed: u32, length: usize) -> Result<Vec<u8>, AllocError> {
    let mut script = Vec::new(heap);
    let states = iter::successors(Some(after(seed)), |state| Some(after(*state)));
    script.extend(states.take(length).map(high_octet))?;
    script.push(b'\n')?;
    Ok(script)
}

// The generator's next state.
fn after(state: u32) -> u32 {
    state.wrapping_mul(1_664_525).wrapping_add(1_013_904_223)
}

fn high_octet(state: u32) -> u8 {
    (state >> 24) as u8
}
