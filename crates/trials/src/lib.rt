// Examples for the tracks, the lamps and the lamp test. Each test is proved to be safe, and then run.
#![tactic(auto)]

#[cfg(test)]
mod lamp_sets;
#[cfg(test)]
mod panels;
#[cfg(test)]
mod tracks;
