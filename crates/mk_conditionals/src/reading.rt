//! What lines with conditionals among them are read by.

/// What tests and statements mean, as the laws of lines see it. It says what is, and has no code.
pub trait Reading {
    /// What is defined.
    type World;

    type Test;

    type Statement;

    /// What statements give.
    type Item;

    /// Why a test or a statement is refused.
    type Fault;

    ghost use Rattle.std.specs.Prelude.{Bool, List, Result};

    /// What is defined behind some items.
    ghost after: { Self.World → List Self.Item → Self.World };

    /// What a test comes to.
    ghost comes_to: { Self.World → Self.Test → Result Bool Self.Fault → Type 0 };

    /// What a statement gives that is taken.
    ghost gives: { Self.World → Self.Statement → Result (List Self.Item) Self.Fault → Type 0 };
}
