//! What is true of every command and every input: each is a function that does nothing, and ensures it.

ghost use Rattle.gm_top.specs.Laws.{EveryInputIsDecided, SamplesAreNeverRefused, DecisionsAreOne, FilesAreOne};
ghost use Rattle.gm_top.specs.Laws.{AcceptedInputsAskForFiles};

/// Every input of a command is refused, or defines the files that the command makes of it.
pub fn every_input_is_decided()
    ensures { EveryInputIsDecided }
{}

/// `sample` refuses nothing: its queries can be drawn, and no side has too many stubs.
pub fn samples_are_never_refused()
    ensures { SamplesAreNeverRefused }
{}

/// Nothing else is decided of an input than what is decided of it: one refusal, or one work.
pub fn decisions_are_one()
    ensures { DecisionsAreOne }
{}

/// Equal inputs define equal files.
pub fn files_are_one()
    ensures { FilesAreOne }
{}

/// `generate` refuses no configuration that is accepted, whose queries can be drawn, and none of whose sides has too
/// many stubs.
pub fn accepted_inputs_ask_for_files()
    ensures { AcceptedInputsAskForFiles }
{}
