// Claims over what reading a packet comes to: the checked table, and where a place at fault lies. There is no code here.
#![tactic(auto)]
