// Worked rows of what commands tell and print, call by call.
#![tactic(auto)]

#[cfg(test)]
mod changed;
#[cfg(test)]
mod layouts;
#[cfg(test)]
mod printing;
#[cfg(test)]
mod silent;
#[cfg(test)]
mod told;
