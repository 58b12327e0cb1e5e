//! The limits of what is read, and of what a proof may hold.

/// The most nodes of a formula, and of a replacement.
pub const MOST_NODES: u32 = 65_536;

/// The greatest depth of a formula, and of a replacement.
pub const GREATEST_DEPTH: u32 = 1_000;

/// The most formulas on a side of a sequent.
pub const MOST_FORMULAS: usize = 256;

/// The most goals of a provable.
pub const MOST_GOALS: usize = 256;

/// The most leaves of a provable.
pub const MOST_LEAVES: usize = 1_024;

/// The most rows of a proof.
pub const MOST_ROWS: usize = 400_000;
