// The mode request of a packet.
ghost use Rattle.std.specs.Prelude.{◌≡◌, ◌≤◌, length, take, drop};
ghost use Rattle.read_mode_request.specs.Requests.{block_request, redundant_request, typed_request};
ghost use Rattle.read_mode_request.specs.Walks.{request_from};

use formats::facts;
use read_headers::redundancy;
use read_headers::redundancy::BlockHeader;
use read_payload::reading;
use read_payload::reading::NO_REQUEST;
use rtp::settings::Settings;

// Where n bytes of s end, or s does.
fn end_of(n: usize, s: &[u8]) -> usize
    ensures { (result ≤ length s.now) × (take result s.now ≡ take n s.now) × (drop result s.now ≡ drop n s.now) }
{
    n.min(s.len())
}

// The request of a block, or the one found before it if it has no rows.
fn block_request(settings: Settings, found: u8, block_type: u8, s: &[u8]) -> u8
    ensures { result ≡ block_request settings found block_type s.now }
{
    if block_type == settings.payload_type {
        if s.len() == 0 {
            return found;
        }
        return reading::mode_request(settings.format, s);
    }
    found
}

// The last request of the blocks whose headers stand at the front of `headers` and whose bytes are s.
fn blocks_request(settings: Settings, found: u8, headers: &[u8], s: &[u8]) -> u8
    ensures { result ≡ request_from settings found headers.now s.now }
{
    match redundancy::read_block_header(headers) {
        Err(_) => NO_REQUEST,
        Ok(BlockHeader::Primary(block_type)) => block_request(settings, found, block_type, s),
        Ok(BlockHeader::Redundant(block)) => {
            let end = end_of(block.length, s);
            let last = block_request(settings, found, block.payload_type, &s[..end]);
            blocks_request(settings, last, &headers[4..], &s[end..])
        }
    }
}

// The request of a redundancy payload.
fn redundant_request(settings: Settings, s: &[u8]) -> u8
    ensures { result ≡ redundant_request settings s.now }
{
    match redundancy::read_headers(s) {
        Err(_) => NO_REQUEST,
        Ok(sizes) => {
            let size = sizes.size;
            blocks_request(settings, NO_REQUEST, s, &s[size..])
        }
    }
}

// The request of a packet of this type with the payload s: formats without a payload header have none, and nothing is walked.
pub fn mode_request(settings: Settings, packet_type: u8, s: &[u8]) -> u8
    ensures { result ≡ typed_request settings packet_type s.now }
{
    if facts::format_of(settings.format).header == 0 {
        return NO_REQUEST;
    }
    if packet_type == settings.payload_type {
        return reading::mode_request(settings.format, s);
    }
    if packet_type == settings.redundancy_type {
        return redundant_request(settings, s);
    }
    NO_REQUEST
}
