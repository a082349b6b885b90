//! Laws about definitions: functions without an effect, whose contracts are the laws.
#![tactic(auto, unfolding(crate::specs::Opcodes::names, aml_code::specs::Opcodes::rows))]

ghost use Rattle.aml_walk.specs.Opcodes.{AreNamed};

/// The names of `opcodes` are those of the table of opcodes, row by row.
pub fn opcodes_are_named()
    ensures { AreNamed }
{}
