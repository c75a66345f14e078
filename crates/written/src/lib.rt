// What is written: every cutting of a payload into pieces writes the interface description's frame, and a parser gives it back.
// There is no code here, only definitions and laws over the definitions that the writer's and the framer's contracts cite.
#![tactic(auto)]
