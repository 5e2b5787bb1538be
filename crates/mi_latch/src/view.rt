//! What a seat at the index's table knows.
use std::marker::Model;

/// What a seat knows. No value of it is made.
pub struct View;

impl Model for View {
    ghost use Rattle.mi_latch.specs.Views.{Sight, newcomer, no_settings};

    ghost Value = { Sight };

    ghost view = { λ _. newcomer no_settings };
}
