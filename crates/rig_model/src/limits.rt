//! The limits of lines, for code and definitions.

/// The greatest number of bytes in a line, without its LF.
pub const MAX_LINE: usize = 16384;

/// The greatest number of reads that may give bytes without reaching the end of the input.
pub const MAX_READS: u32 = 1048576;
