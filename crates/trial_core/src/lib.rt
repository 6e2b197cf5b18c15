// A trial of staging sizes with made-up forks (document 02, U12), once 25 and 38 are tested: one call, one undo and one flush of it.
#![tactic(auto)]

// The numbers of a standing call in its borrowed list.
pub const STOOD: usize = 3;
