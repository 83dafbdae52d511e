//! What no program and no row can show below workers: batches that threads share and growths in vain, job slots of pools that end or
//! fail, and the text of marks.
#![tactic(auto)]

#[cfg(test)]
mod acknowledged;
#[cfg(test)]
mod flush_growths;
#[cfg(test)]
mod marks;
#[cfg(test)]
mod memory_pool;
#[cfg(test)]
mod planned_pipe;
#[cfg(test)]
mod sharing;
#[cfg(test)]
mod stopped_pools;
