// Laws of the definitions.
ghost use Rattle.keep_rules.specs.Laws.{ReadsItsRules};

/// Rules are read exactly where the words stand for them, so words are one config at most.
pub fn rules_are_read()
    ensures { ReadsItsRules }
{}
