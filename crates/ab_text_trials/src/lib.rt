//! Tests of the texts of schedules, reports and keys, of words and of pictures: apart from their crates, so that none is proved once more.
#![tactic(auto)]

#[cfg(test)]
mod key_texts;
#[cfg(test)]
mod later_heads;
#[cfg(test)]
mod pictures;
#[cfg(test)]
mod schedules;
#[cfg(test)]
mod svgs;
#[cfg(test)]
mod words;
#[cfg(test)]
mod written;
