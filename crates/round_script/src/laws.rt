//! Laws of scripts. Nobody calls these functions: the contract of each states a law.

ghost use Rattle.round_script.specs.Fault.{FaultsHaveNames};
ghost use Rattle.round_script.specs.Made.{MadeScriptsAreScripts};
ghost use Rattle.round_script.specs.Script.{ReadScriptsAreScripts};

/// A fault is found by its name, and by no other.
pub fn faults_have_names()
    ensures { FaultsHaveNames }
{}

/// What is made from a number is a script.
pub fn made_scripts_are_scripts()
    ensures { MadeScriptsAreScripts }
{}

/// What is read as a script is one.
pub fn read_scripts_are_scripts()
    ensures { ReadScriptsAreScripts }
{}
