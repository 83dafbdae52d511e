//! The promise about every order of workers' steps and every power cut, and that the calls of a site and of a board are such
//! steps. Nothing here runs.
#![tactic(auto)]

mod laws;

pub use laws::{
    board_calls_are_steps, board_calls_are_steps_in, cut_off, cut_off_in, every_interleaving,
    every_interleaving_in, flushes_are_runs, flushes_are_runs_in, others_dont_hinder,
    others_dont_hinder_in, recipes_are_steps, some_interleavings, some_interleavings_in,
};
