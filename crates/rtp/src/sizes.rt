// The papers' figures for packets, rows and frames (document 01, "Sizes"; of rows document 02, P12): each is named here and used by name.
// The shortest packet, which is the fixed header alone, and the longest, in bytes.
pub const MIN_PACKET: usize = 12;

pub const MAX_PACKET: usize = 2048;

// The most rows of a packet, the words of a row, and of an area that rows are read into.
pub const MAX_ROWS: usize = 384;

pub const ROW_WIDTH: usize = 4;

pub const ROW_AREA: usize = ROW_WIDTH * MAX_ROWS;

// The bytes of the longest frame.
pub const MAX_FRAME: usize = 320;
