//! Whole scripts in memory, beside a plain model that shares no code with the disk.
#![tactic(auto)]

#[cfg(test)]
mod dice;
#[cfg(test)]
mod lines;
#[cfg(test)]
mod maker;
#[cfg(test)]
mod model;
#[cfg(test)]
mod opener;
#[cfg(test)]
mod outside;
#[cfg(test)]
mod replay;
#[cfg(test)]
mod runs;
#[cfg(test)]
mod scripts;
#[cfg(test)]
mod stops;
#[cfg(test)]
mod tests;
#[cfg(test)]
mod tracks;
#[cfg(test)]
mod trial;
