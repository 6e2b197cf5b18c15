// Positions of a reader of coded numbers, on a slice and numbers: where it stands after what it looked for.
// Internal: the reader itself is the struct of `vlq_reader`.
#![tactic(auto)]

ghost use Rattle.std.specs.Prelude.{◌≡◌};
ghost use Rattle.vlq_positions.specs.Positions.{after, span_at};

// The bytes from the first position up to the second, or the refusal code.
pub type Span = Result<(usize, usize), u8>;

// The position after what was looked for at a position, a number or bytes; a refusal leaves it.
pub fn after<T: Copy>(found: Result<(T, usize), u8>, at: usize) -> usize
    ensures { result ≡ after found at }
{
    match found {
        Ok((_, next)) => next,
        Err(_) => at,
    }
}

// The n bytes at a position.
pub fn get_bytes(src: &[u8], at: usize, n: usize) -> Span
    ensures { result ≡ span_at src.now at n }
{
    if !vlq_core::has_room(src.len(), at, n) {
        return Err(refusal::BYTES_END);
    }
    Ok((at, at + n))
}
