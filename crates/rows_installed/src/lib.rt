// Installed programs beside the abstract machine: sources from seeds under layouts of every size, and lists of
// forty items.
#![tactic(auto)]

#[cfg(test)]
mod agreement;
#[cfg(test)]
mod ends;
#[cfg(test)]
mod lists;
#[cfg(test)]
mod texts;
