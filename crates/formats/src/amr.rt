// Frame lengths of AMR and AMR-WB (RFC 4867) by frame type.
// AMR frame lengths in bytes by type.
pub(crate) const AMR_LENGTHS: [u16; 16] = [
    12, 13, 15, 17, 19, 20, 26, 31, 5, // 8, a SID
    65535, // 9 to 14, reserved
    65535, 65535, 65535, 65535, 65535, 0, // 15, no data
];

// .. of AMR-WB.
pub(crate) const AMR_WB_LENGTHS: [u16; 16] = [
    17, 23, 32, 36, 40, 46, 50, 58, 60, 5, // 9, a SID
    65535, // 10 to 13, reserved
    65535, 65535, 65535, 0, // 14 and 15, no data
    0,
];
