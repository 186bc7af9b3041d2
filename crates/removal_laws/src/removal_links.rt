//! What removal breaks: no rule for links.
ghost use Rattle.removal_laws.specs.RemovalLinks.Laws.{RemovalKeepsLinks};

/// What is left of a set that is taken, by marks that are closed for the system of requirements, breaks no rule that
/// `check_links` tests, where the attribute Exceptions is kept. It does nothing.
pub fn removal_keeps_links()
    ensures { RemovalKeepsLinks }
{}
