// How large a community may be.
pub const MAX_SERVICES: usize = 8;

// The number that a task may have too; services rest on no task, so it stands here again.
pub const MAX_ACTIONS: usize = 16;

pub const MAX_STATES: usize = 16;
