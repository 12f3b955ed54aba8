// Writes a sample stream to standard output: RTP packets of interleaved G.719 with redundancy, as a network that loses, repeats, delays
// and damages brought them, each behind its length in two bytes, the high one first.
#![tactic(auto)]

mod frames;
mod network;
mod packets;

fn main() {
    network::deliver();
}
