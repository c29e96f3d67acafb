// Worked rows of image files.
#![tactic(auto)]

#[cfg(test)]
mod images;
#[cfg(test)]
mod refusals;
#[cfg(test)]
mod samples;
#[cfg(test)]
mod settings;
