// The sources (SSRC) of the packets that were read.
use crate::printing;
use read_headers::header;
use read_headers::header::Header;
use report::calls;
use report::record::Reception;

// The first packet's source, if there was a packet, with its reception, and how many packets are of another.
#[derive(Clone, Copy, Default)]
pub(crate) struct Sources {
    pub first: Option<u32>,
    pub others: u64,
    pub heard: Reception,
}

impl Sources {
    // A packet of the first source. The stream does not say when it arrived: as if at its timestamp, so that there is no jitter.
    fn add_first(&mut self, head: Header) {
        let received = calls::packet(self.heard, head.sequence, head.timestamp, head.timestamp);
        self.first = Some(head.source);
        self.heard = received.reception;
    }

    // A packet, the one of this number; the first of another source is warned of.
    fn add_header(&mut self, number: u64, head: Header) {
        match self.first {
            Some(first) if head.source != first => {
                if self.others == 0 {
                    printing::warn_source(number, head.source, first);
                }
                self.others = self.others.wrapping_add(1);
            }
            _ => self.add_first(head),
        }
    }

    // A packet that was read, the one of this number.
    pub(crate) fn add(&mut self, number: u64, packet: &[u8]) {
        if let Ok(head) = header::read_header(packet) {
            self.add_header(number, head);
        }
    }
}
