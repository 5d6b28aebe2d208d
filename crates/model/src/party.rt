// Whom a closure stops, and who asks. They are numbers and no enum, since C lends records and callers with any number: 38 and 39 refuse the others.
pub const BOTH: u32 = 0;

pub const BRIGADE: u32 = 1;

pub const DEPOT: u32 = 2;
