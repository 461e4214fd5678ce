// Examples and edges of the link, of whole runs and of the one-shot calls. They stand apart so that what they test is
// proved without them.
#![tactic(auto)]

#[cfg(test)]
mod forged;
#[cfg(test)]
mod lengths;
#[cfg(test)]
mod long_session;
#[cfg(test)]
mod one_shot;
#[cfg(test)]
mod published;
#[cfg(test)]
mod two_lists;
