// Whole streams: every cutting gives 01's scan, and every UBX frame is the interface description's. There is no code here, only
// definitions and laws over the definitions that the framer's contracts cite.
#![tactic(auto)]
