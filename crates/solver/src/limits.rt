// The limits of solve and check.

// No more goals are taken at once.
pub const MOST_GOALS: usize = 8;

// A record list serves with its first so many steps, and check takes no longer record.
pub const MOST_STEPS: usize = 4096;
