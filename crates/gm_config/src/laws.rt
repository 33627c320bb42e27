//! The laws of configurations. Each is the contract of a function that does nothing.
ghost use Rattle.gm_config.specs.Laws.{RulesGiveConfig, SampleIsRead, SampleIsConfig};

/// A value that breaks no rule gives what each configuration keeps.
pub fn rules_give_config()
    ensures { RulesGiveConfig }
{}

/// The sample's text has a reading, which breaks no rule and is the sample.
pub fn sample_is_read()
    ensures { SampleIsRead }
{}

/// The sample keeps the rules of a configuration at each of its sizes.
pub fn sample_is_config()
    ensures { SampleIsConfig }
{}
