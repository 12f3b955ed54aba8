// What is written reads back: theorems over the contracts of `write_payload`, `write_packet` and `read`. There is no code here.
#![tactic(auto)]
