//! What no program and no row can show of workers: recipes that run at once, growths in vain, reports that aren't true, devices that
//! stop, and how often included files are read. Runs go over memory: a makefile, files by their times, a state on a memory disk, recipe
//! lines answered by their text.
#![tactic(auto)]

#[cfg(test)]
mod closing;
#[cfg(test)]
mod counted_reads;
#[cfg(test)]
mod desk;
#[cfg(test)]
mod expected;
#[cfg(test)]
mod fake;
#[cfg(test)]
mod lines;
#[cfg(test)]
mod long_texts;
#[cfg(test)]
mod pool;
#[cfg(test)]
mod refused;
#[cfg(test)]
mod run_growths;
#[cfg(test)]
mod runs;
#[cfg(test)]
mod stopped_devices;
#[cfg(test)]
mod voice;
#[cfg(test)]
mod way;
#[cfg(test)]
mod workers;
