// The arguments that a program was started with.
use std::env::{Env, FillError};

// Whether there is an argument of this number; the program's own name is argument 0.
fn is_given<V: Env>(env: &V, number: usize) -> bool {
    let mut nothing = [0u8; 0];
    !matches!(env.arg(number, &mut nothing), Err(FillError::NotPresent))
}

// How many there are, the program's own name among them.
pub fn count<V: Env>(env: &V) -> usize {
    (0..usize::MAX)
        .find(|number| !is_given(env, *number))
        .unwrap_or(usize::MAX)
}
