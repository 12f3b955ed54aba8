// What the network did with the packets.
use crate::packets;
use rtp::sizes::MAX_PACKET;

// The number of standard output.
const STDOUT_FILENO: i32 = 1;

// The version bits of this packet are cleared: refusal 2.
const DAMAGED: u8 = 45;
// The last bytes of this packet are missing: refusal 10.
const CUT: u8 = 52;

const CUT_BYTES: usize = 10;

// Writes a packet behind the number of its bytes, which fits in two. Whether the output takes it is not asked.
fn put(packet: &[u8]) {
    if let Ok(n) = u16::try_from(packet.len()) {
        io::write_all(STDOUT_FILENO, &n.to_be_bytes());
        io::write_all(STDOUT_FILENO, packet);
    }
}

// Packet k as it comes.
fn deliver_one(k: u8) {
    let mut bytes = [0u8; MAX_PACKET];
    let sent = packets::write(k, &mut bytes);
    let brought = if k == CUT {
        sent.wrapping_sub(CUT_BYTES)
    } else {
        sent
    };
    if k == DAMAGED {
        bytes[0] = bytes[0] % 64;
    }
    if let Some(packet) = bytes.get(..brought) {
        put(packet);
    }
}

fn deliver_all(order: &[u8]) {
    for k in order {
        deliver_one(*k);
    }
}

// The packets in the order in which they come.
pub(crate) fn deliver() {
    // 5 is lost, and its list comes with 6. 8 is repeated.
    deliver_all(&[0, 1, 2, 3, 4, 6, 7, 8, 8, 9, 10, 11]);
    // 12 and 13 are swapped. 16 comes again four packets later. 19 is lost.
    deliver_all(&[13, 12, 14, 15, 16, 17, 18, 20, 21, 16]);
    // 23 is lost, and 22, whose list it repeats, comes five places late, but in time.
    deliver_all(&[24, 25, 26, 27, 28, 22, 29]);
    // 30 and 31 are lost: 31's list comes with 32, and 30's never.
    deliver_all(&[32, 33, 34, 35, 36, 37]);
    // 38 stays away. 42 is lost. 43 comes three times. 45 is damaged.
    deliver_all(&[39, 40, 41, 43, 43, 43, 44, 45, 46]);
    // 47 and 48 are swapped. 52 is cut short.
    deliver_all(&[48, 47, 49, 50, 51, 52, 53, 54, 55, 56, 57, 58]);
    // 38 comes 23 places late: its frames were drawn already.
    deliver_all(&[59, 60, 38, 61, 62, 63, 64, 65]);
}
