// What holds of configs.
ghost use Rattle.command_steps.specs.OneConfig.{IsOneConfig, ReadsItsConfig};

/// A config's rules are read exactly where its bytes have words that stand for them. It does nothing.
pub fn configs_are_read()
    ensures { ReadsItsConfig }
{}

/// A text is one config at most. It does nothing.
pub fn one_config()
    ensures { IsOneConfig }
{}
