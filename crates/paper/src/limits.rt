// Document 01's limits and marks, as the code names them; specs/Limits has them for the definitions.

pub const MOST_BYTES: usize = 65536;

pub const MOST_RECORDS: usize = 1024;

pub const MOST_NUMBER: u32 = 65535;

pub const MOST_WEIGHT: u32 = 1000000000;

pub const HEAVIEST: u32 = 4000000000;

pub const LONGEST: u16 = 4096;

pub const OVER_MARK: u32 = 4294967294;

pub const NEVER_MARK: u32 = 4294967295;

pub const LONG_MARK: u16 = 4097;
